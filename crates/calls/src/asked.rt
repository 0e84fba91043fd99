// What is asked of the record of a case: what it is written as, what stands behind it, and a byte field and an item of it.
use crate::case::{Case, HEAD};
use crate::changed::Changed;
use crate::said::{say_bytes, say_part, say_written};
use areas::tpmt::{TpmtNvPublic2, TpmtTkAuth, TpmtTkCreation, TpmtTkHashcheck, TpmtTkVerified};
use attest::attestation::TpmsAttest;
use attest::list::TpmlPcrSelection;
use capabilities::tpms::TpmsCapabilityData;
use ciphers::tpmt::{TpmtHa, TpmtSymDef};
use faults::Refusal;
use format::kind::Kind;
use keys::tpmt::TpmtPublic;
use lists::listed::Listed;
use parameters::tpmt::TpmtPublicParms;
use records::tail::tail_of;
use schemes::tpmt::{
    TpmtEccScheme, TpmtKdfScheme, TpmtKeyedhashScheme, TpmtRsaDecrypt, TpmtRsaScheme, TpmtSigScheme,
};
use sensitive::tpmt::TpmtSensitive;
use signatures::tpmt::TpmtSignature;
use steps::marshal::Listless;

// The record of a case, with what the case puts in place of a part, as it is written: into just as many bytes of out as it measures. One
// that is to be refused is lent all of out, so that it shows if a byte is put before it is. Its spans are of src.
fn written<T: Changed>(case: Case, s: &[u8], src: &[u8], out: &mut [u8]) -> Result<T, Refusal> {
    let (x, end) = T::unmarshal(s, case.first)?;
    let y = x.changed(case, s)?;
    let measured = y.measure(src);
    let there = out.len();
    let room = measured.unwrap_or(there).min(there);
    let written = y.marshal(src, &mut out[..room]);
    say_written(case.number, measured, written, out);
    if let Some(index) = case.index {
        say_bytes(b"tail ", tail_of(s, end));
        say_part(
            case.number,
            b"field ",
            y.field_size(src, index),
            y.field(src, index),
        );
    }
    Ok(y)
}

fn listless<T: Changed + Listless>(
    case: Case,
    s: &[u8],
    src: &[u8],
    out: &mut [u8],
) -> Result<(), Refusal> {
    let y = written::<T>(case, s, src, out)?;
    if let Some(i) = case.index {
        say_part(case.number, b"item ", y.item_size(src, i), y.item(src, i));
    }
    Ok(())
}

fn listed<T: Changed + Listed>(
    case: Case,
    s: &[u8],
    src: &[u8],
    out: &mut [u8],
) -> Result<(), Refusal> {
    let y = written::<T>(case, s, src, out)?;
    if let Some(i) = case.index {
        say_part(case.number, b"item ", y.item_size(src, i), y.item(src, i));
    }
    Ok(())
}

// Answers the case of that head; refused where its record is not read, or holds another arm than the one that the case is about.
pub fn answer(head: &[u8; HEAD], s: &[u8], src: &[u8], out: &mut [u8]) -> Result<(), Refusal> {
    let case = Case::of(head)?;
    match case.kind {
        Kind::TpmtHa => listless::<TpmtHa>(case, s, src, out),
        Kind::TpmtSymDef => listless::<TpmtSymDef>(case, s, src, out),
        Kind::TpmtKdfScheme => listless::<TpmtKdfScheme>(case, s, src, out),
        Kind::TpmtKeyedhashScheme => listless::<TpmtKeyedhashScheme>(case, s, src, out),
        Kind::TpmtSigScheme => listless::<TpmtSigScheme>(case, s, src, out),
        Kind::TpmtRsaScheme => listless::<TpmtRsaScheme>(case, s, src, out),
        Kind::TpmtEccScheme => listless::<TpmtEccScheme>(case, s, src, out),
        Kind::TpmtRsaDecrypt => listless::<TpmtRsaDecrypt>(case, s, src, out),
        Kind::TpmtPublicParms => listless::<TpmtPublicParms>(case, s, src, out),
        Kind::TpmtSignature => listless::<TpmtSignature>(case, s, src, out),
        Kind::TpmtPublic => listless::<TpmtPublic>(case, s, src, out),
        Kind::TpmtSensitive => listless::<TpmtSensitive>(case, s, src, out),
        Kind::TpmsAttest => listed::<TpmsAttest>(case, s, src, out),
        Kind::TpmlPcrSelection => listed::<TpmlPcrSelection>(case, s, src, out),
        Kind::TpmsCapabilityData => listed::<TpmsCapabilityData>(case, s, src, out),
        Kind::TpmtNvPublic2 => listless::<TpmtNvPublic2>(case, s, src, out),
        Kind::TpmtTkCreation => listless::<TpmtTkCreation>(case, s, src, out),
        Kind::TpmtTkVerified => listless::<TpmtTkVerified>(case, s, src, out),
        Kind::TpmtTkHashcheck => listless::<TpmtTkHashcheck>(case, s, src, out),
        Kind::TpmtTkAuth => listless::<TpmtTkAuth>(case, s, src, out),
    }
}
