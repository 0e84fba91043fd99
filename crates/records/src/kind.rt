// A record of any kind by the kind's number, for callers that only need to know where it ends.
ghost use Rattle.std.specs.Prelude.{◌≡◌};
ghost use Rattle.wire.specs.Answers.{measure_answer};
ghost use Rattle.wire.specs.Reading.{read, end_of};
ghost use Rattle.format.specs.Kinds.{layout_of};
ghost use Rattle.format.specs.Numbers.{number_of};
ghost use Rattle.records.specs.Ends.{Ends};

use crate::read::record_read;
use areas::tpmt::{TpmtNvPublic2, TpmtTkAuth, TpmtTkCreation, TpmtTkHashcheck, TpmtTkVerified};
use attest::attestation::TpmsAttest;
use attest::list::TpmlPcrSelection;
use capabilities::tpms::TpmsCapabilityData;
use ciphers::tpmt::{TpmtHa, TpmtSymDef};
use faults::Refusal;
use format::kind::Kind;
use keys::tpmt::TpmtPublic;
use parameters::tpmt::TpmtPublicParms;
use schemes::tpmt::{
    TpmtEccScheme, TpmtKdfScheme, TpmtKeyedhashScheme, TpmtRsaDecrypt, TpmtRsaScheme, TpmtSigScheme,
};
use sensitive::tpmt::TpmtSensitive;
use signatures::tpmt::TpmtSignature;
use wire::unmarshal::TpmUnmarshal;

// By the type's reader, whose contract says what its answer means.
fn end_of<T: TpmUnmarshal>(s: &[u8], at: usize) -> Result<usize, Refusal>
    ensures { measure_answer result ≡ end_of (read T.layout s.now at) }
{
    let (_, end) = record_read::<T>(s, at)?;
    Ok(end)
}

// That of the kind's own type.
#[tactic(auto, unfolding(format::specs::Kinds::layout_of, format::specs::Kinds::kinds))]
fn end_by_kind(kind: Kind, s: &[u8], at: usize) -> Result<usize, Refusal>
    ensures { measure_answer result ≡ end_of (read (layout_of (number_of kind)) s.now at) }
{
    match kind {
        Kind::TpmtHa => end_of::<TpmtHa>(s, at),
        Kind::TpmtSymDef => end_of::<TpmtSymDef>(s, at),
        Kind::TpmtKdfScheme => end_of::<TpmtKdfScheme>(s, at),
        Kind::TpmtKeyedhashScheme => end_of::<TpmtKeyedhashScheme>(s, at),
        Kind::TpmtSigScheme => end_of::<TpmtSigScheme>(s, at),
        Kind::TpmtRsaScheme => end_of::<TpmtRsaScheme>(s, at),
        Kind::TpmtEccScheme => end_of::<TpmtEccScheme>(s, at),
        Kind::TpmtRsaDecrypt => end_of::<TpmtRsaDecrypt>(s, at),
        Kind::TpmtPublicParms => end_of::<TpmtPublicParms>(s, at),
        Kind::TpmtSignature => end_of::<TpmtSignature>(s, at),
        Kind::TpmtPublic => end_of::<TpmtPublic>(s, at),
        Kind::TpmtSensitive => end_of::<TpmtSensitive>(s, at),
        Kind::TpmsAttest => end_of::<TpmsAttest>(s, at),
        Kind::TpmlPcrSelection => end_of::<TpmlPcrSelection>(s, at),
        Kind::TpmsCapabilityData => end_of::<TpmsCapabilityData>(s, at),
        Kind::TpmtNvPublic2 => end_of::<TpmtNvPublic2>(s, at),
        Kind::TpmtTkCreation => end_of::<TpmtTkCreation>(s, at),
        Kind::TpmtTkVerified => end_of::<TpmtTkVerified>(s, at),
        Kind::TpmtTkHashcheck => end_of::<TpmtTkHashcheck>(s, at),
        Kind::TpmtTkAuth => end_of::<TpmtTkAuth>(s, at),
    }
}

// Where the record of that kind that starts at `at` ends, whatever follows it, or why none does. A number that is no kind is refused first.
pub fn record_end(kind: u8, s: &[u8], at: usize) -> Result<usize, Refusal>
    ensures { Ends kind s.now at result }
{
    let of = Kind::try_from(kind)?;
    end_by_kind(of, s, at)
}
