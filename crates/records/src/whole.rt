// A record of any kind by the kind's number that is to be all there is, for callers that only need to know where it ends.
ghost use Rattle.std.specs.Prelude.{◌≡◌};
ghost use Rattle.wire.specs.Answers.{measure_answer};
ghost use Rattle.wire.specs.Reading.{read_whole, end_of};
ghost use Rattle.format.specs.Kinds.{layout_of};
ghost use Rattle.format.specs.Numbers.{number_of};
ghost use Rattle.records.specs.Ends.{WholeEnds};

use crate::read::record_read_whole;
use areas::tpmt::{TpmtNvPublic2, TpmtTkAuth, TpmtTkCreation, TpmtTkHashcheck, TpmtTkVerified};
use attest::attestation::TpmsAttest;
use attest::list::TpmlPcrSelection;
use capabilities::tpms::TpmsCapabilityData;
use ciphers::tpmt::{TpmtHa, TpmtSymDef};
use faults::Refusal;
use format::kind::Kind;
use keys::tpmt::TpmtPublic;
use parameters::tpmt::TpmtPublicParms;
use schemes::tpmt::{
    TpmtEccScheme, TpmtKdfScheme, TpmtKeyedhashScheme, TpmtRsaDecrypt, TpmtRsaScheme, TpmtSigScheme,
};
use sensitive::tpmt::TpmtSensitive;
use signatures::tpmt::TpmtSignature;
use wire::unmarshal::TpmUnmarshal;

// By the type's reader, whose contract says what its answer means.
fn whole_end_of<T: TpmUnmarshal>(s: &[u8], at: usize) -> Result<usize, Refusal>
    ensures { measure_answer result ≡ end_of (read_whole T.layout s.now at) }
{
    let (_, end) = record_read_whole::<T>(s, at)?;
    Ok(end)
}

// That of the kind's own type.
#[tactic(auto, unfolding(format::specs::Kinds::layout_of, format::specs::Kinds::kinds))]
fn whole_end_by_kind(kind: Kind, s: &[u8], at: usize) -> Result<usize, Refusal>
    ensures { measure_answer result ≡ end_of (read_whole (layout_of (number_of kind)) s.now at) }
{
    match kind {
        Kind::TpmtHa => whole_end_of::<TpmtHa>(s, at),
        Kind::TpmtSymDef => whole_end_of::<TpmtSymDef>(s, at),
        Kind::TpmtKdfScheme => whole_end_of::<TpmtKdfScheme>(s, at),
        Kind::TpmtKeyedhashScheme => whole_end_of::<TpmtKeyedhashScheme>(s, at),
        Kind::TpmtSigScheme => whole_end_of::<TpmtSigScheme>(s, at),
        Kind::TpmtRsaScheme => whole_end_of::<TpmtRsaScheme>(s, at),
        Kind::TpmtEccScheme => whole_end_of::<TpmtEccScheme>(s, at),
        Kind::TpmtRsaDecrypt => whole_end_of::<TpmtRsaDecrypt>(s, at),
        Kind::TpmtPublicParms => whole_end_of::<TpmtPublicParms>(s, at),
        Kind::TpmtSignature => whole_end_of::<TpmtSignature>(s, at),
        Kind::TpmtPublic => whole_end_of::<TpmtPublic>(s, at),
        Kind::TpmtSensitive => whole_end_of::<TpmtSensitive>(s, at),
        Kind::TpmsAttest => whole_end_of::<TpmsAttest>(s, at),
        Kind::TpmlPcrSelection => whole_end_of::<TpmlPcrSelection>(s, at),
        Kind::TpmsCapabilityData => whole_end_of::<TpmsCapabilityData>(s, at),
        Kind::TpmtNvPublic2 => whole_end_of::<TpmtNvPublic2>(s, at),
        Kind::TpmtTkCreation => whole_end_of::<TpmtTkCreation>(s, at),
        Kind::TpmtTkVerified => whole_end_of::<TpmtTkVerified>(s, at),
        Kind::TpmtTkHashcheck => whole_end_of::<TpmtTkHashcheck>(s, at),
        Kind::TpmtTkAuth => whole_end_of::<TpmtTkAuth>(s, at),
    }
}

// Where the record of that kind ends that is all there is from `at` on, or why there is none. A number that is no kind is refused first.
pub fn whole_end(kind: u8, s: &[u8], at: usize) -> Result<usize, Refusal>
    ensures { WholeEnds kind s.now at result }
{
    let of = Kind::try_from(kind)?;
    whole_end_by_kind(of, s, at)
}
