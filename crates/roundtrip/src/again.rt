// A record of any kind by the kind's number: read, written, and read again from where it was written.
ghost use Rattle.wire.specs.Reading.{read};
ghost use Rattle.format.specs.Kinds.{layout_of, read_kind};
ghost use Rattle.format.specs.Numbers.{number_of};
ghost use Rattle.roundtrip.specs.Roundtrip.{Rewrites, Again};

use crate::back::back;
use areas::tpmt::{TpmtNvPublic2, TpmtTkAuth, TpmtTkCreation, TpmtTkHashcheck, TpmtTkVerified};
use attest::attestation::TpmsAttest;
use attest::list::TpmlPcrSelection;
use capabilities::tpms::TpmsCapabilityData;
use ciphers::tpmt::{TpmtHa, TpmtSymDef};
use faults::Refusal;
use format::kind::Kind;
use keys::tpmt::TpmtPublic;
use parameters::tpmt::TpmtPublicParms;
use schemes::tpmt::{
    TpmtEccScheme, TpmtKdfScheme, TpmtKeyedhashScheme, TpmtRsaDecrypt, TpmtRsaScheme, TpmtSigScheme,
};
use sensitive::tpmt::TpmtSensitive;
use signatures::tpmt::TpmtSignature;
use steps::marshal::TpmMarshal;

// The record of that type that s starts with.
fn again_of<T: TpmMarshal>(s: &[u8], out: &mut [u8]) -> Result<usize, Refusal>
    ensures { Rewrites (read T.layout s.now 0) s.now out.old result out.new }
{
    let (x, _) = T::unmarshal(s, 0)?;
    let (_, end) = back(x, s, out)?;
    Ok(end)
}

// That of that kind.
#[tactic(auto, unfolding(format::specs::Kinds::layout_of, format::specs::Kinds::kinds))]
fn again_by_kind(kind: Kind, s: &[u8], out: &mut [u8]) -> Result<usize, Refusal>
    ensures { Rewrites (read (layout_of (number_of kind)) s.now 0) s.now out.old result out.new }
{
    match kind {
        Kind::TpmtHa => again_of::<TpmtHa>(s, out),
        Kind::TpmtSymDef => again_of::<TpmtSymDef>(s, out),
        Kind::TpmtKdfScheme => again_of::<TpmtKdfScheme>(s, out),
        Kind::TpmtKeyedhashScheme => again_of::<TpmtKeyedhashScheme>(s, out),
        Kind::TpmtSigScheme => again_of::<TpmtSigScheme>(s, out),
        Kind::TpmtRsaScheme => again_of::<TpmtRsaScheme>(s, out),
        Kind::TpmtEccScheme => again_of::<TpmtEccScheme>(s, out),
        Kind::TpmtRsaDecrypt => again_of::<TpmtRsaDecrypt>(s, out),
        Kind::TpmtPublicParms => again_of::<TpmtPublicParms>(s, out),
        Kind::TpmtSignature => again_of::<TpmtSignature>(s, out),
        Kind::TpmtPublic => again_of::<TpmtPublic>(s, out),
        Kind::TpmtSensitive => again_of::<TpmtSensitive>(s, out),
        Kind::TpmsAttest => again_of::<TpmsAttest>(s, out),
        Kind::TpmlPcrSelection => again_of::<TpmlPcrSelection>(s, out),
        Kind::TpmsCapabilityData => again_of::<TpmsCapabilityData>(s, out),
        Kind::TpmtNvPublic2 => again_of::<TpmtNvPublic2>(s, out),
        Kind::TpmtTkCreation => again_of::<TpmtTkCreation>(s, out),
        Kind::TpmtTkVerified => again_of::<TpmtTkVerified>(s, out),
        Kind::TpmtTkHashcheck => again_of::<TpmtTkHashcheck>(s, out),
        Kind::TpmtTkAuth => again_of::<TpmtTkAuth>(s, out),
    }
}

// The record of that kind that s starts with, read, written into out, and read again from there: where the second reading ended, which is
// the record's size, or the first refusal. A number that is no kind is refused first.
pub fn again(kind: u8, s: &[u8], out: &mut [u8]) -> Result<usize, Refusal>
    ensures { Again kind s.now out.old result out.new }
{
    let of = Kind::try_from(kind)?;
    again_by_kind(of, s, out)
}
