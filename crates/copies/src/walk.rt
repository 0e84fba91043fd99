// A record of any kind by the kind's number, walked over: listed, measured, or copied.
ghost use Rattle.wire.specs.Reading.{read};
ghost use Rattle.format.specs.Kinds.{layout_of, read_kind};
ghost use Rattle.format.specs.Numbers.{number_of};
ghost use Rattle.steps.specs.Walks.{here};
ghost use Rattle.copies.specs.Walked.{WalkOf};
ghost use Rattle.copies.specs.Copied.{MeasuresKind, Copies};

use areas::tpmt::{TpmtNvPublic2, TpmtTkAuth, TpmtTkCreation, TpmtTkHashcheck, TpmtTkVerified};
use attest::attestation::TpmsAttest;
use attest::list::TpmlPcrSelection;
use capabilities::tpms::TpmsCapabilityData;
use ciphers::tpmt::{TpmtHa, TpmtSymDef};
use faults::Refusal;
use format::kind::Kind;
use keys::tpmt::TpmtPublic;
use parameters::tpmt::TpmtPublicParms;
use schemes::tpmt::{
    TpmtEccScheme, TpmtKdfScheme, TpmtKeyedhashScheme, TpmtRsaDecrypt, TpmtRsaScheme, TpmtSigScheme,
};
use sensitive::tpmt::TpmtSensitive;
use signatures::tpmt::TpmtSignature;
use steps::marshal::TpmMarshal;
use steps::walk::{Walk, judging, ready, refusing};

// The record of that type that s starts with.
fn walk_of<T: TpmMarshal>(s: &[u8], w: Walk, out: &mut [u8]) -> Walk
    ensures { WalkOf T.layout s.now (read T.layout s.now 0) (here w out.old) (here result out.new) }
{
    match T::unmarshal(s, 0) {
        Ok((x, _)) => x.walk(w, s, out),
        Err(f) => refusing(f),
    }
}

// That of that kind.
#[tactic(auto, unfolding(format::specs::Kinds::layout_of, format::specs::Kinds::kinds))]
fn walk_by_kind(kind: Kind, s: &[u8], w: Walk, out: &mut [u8]) -> Walk
    ensures { WalkOf (layout_of (number_of kind)) s.now (read (layout_of (number_of kind)) s.now 0) (here w out.old) (here result out.new) }
{
    match kind {
        Kind::TpmtHa => walk_of::<TpmtHa>(s, w, out),
        Kind::TpmtSymDef => walk_of::<TpmtSymDef>(s, w, out),
        Kind::TpmtKdfScheme => walk_of::<TpmtKdfScheme>(s, w, out),
        Kind::TpmtKeyedhashScheme => walk_of::<TpmtKeyedhashScheme>(s, w, out),
        Kind::TpmtSigScheme => walk_of::<TpmtSigScheme>(s, w, out),
        Kind::TpmtRsaScheme => walk_of::<TpmtRsaScheme>(s, w, out),
        Kind::TpmtEccScheme => walk_of::<TpmtEccScheme>(s, w, out),
        Kind::TpmtRsaDecrypt => walk_of::<TpmtRsaDecrypt>(s, w, out),
        Kind::TpmtPublicParms => walk_of::<TpmtPublicParms>(s, w, out),
        Kind::TpmtSignature => walk_of::<TpmtSignature>(s, w, out),
        Kind::TpmtPublic => walk_of::<TpmtPublic>(s, w, out),
        Kind::TpmtSensitive => walk_of::<TpmtSensitive>(s, w, out),
        Kind::TpmsAttest => walk_of::<TpmsAttest>(s, w, out),
        Kind::TpmlPcrSelection => walk_of::<TpmlPcrSelection>(s, w, out),
        Kind::TpmsCapabilityData => walk_of::<TpmsCapabilityData>(s, w, out),
        Kind::TpmtNvPublic2 => walk_of::<TpmtNvPublic2>(s, w, out),
        Kind::TpmtTkCreation => walk_of::<TpmtTkCreation>(s, w, out),
        Kind::TpmtTkVerified => walk_of::<TpmtTkVerified>(s, w, out),
        Kind::TpmtTkHashcheck => walk_of::<TpmtTkHashcheck>(s, w, out),
        Kind::TpmtTkAuth => walk_of::<TpmtTkAuth>(s, w, out),
    }
}

// The record of that kind that s starts with, walked over; where there is none, the walk is refused. A number that is no kind is refused
// first.
pub fn walk(kind: u8, s: &[u8], w: Walk, out: &mut [u8]) -> Walk
    ensures { WalkOf (layout_of kind) s.now (read_kind kind s.now 0) (here w out.old) (here result out.new) }
{
    match Kind::try_from(kind) {
        Ok(of) => walk_by_kind(of, s, w, out),
        Err(f) => refusing(f),
    }
}

// The record of that kind that s starts with, measured: how long it is, or why not.
pub fn measure(kind: u8, s: &[u8]) -> Result<usize, Refusal>
    ensures { MeasuresKind kind s.now result }
{
    walk(kind, s, judging(0), &mut []).answer()
}

// The record of that kind that s starts with, copied into out: how long it is, or why not.
pub fn copy(kind: u8, s: &[u8], out: &mut [u8]) -> Result<usize, Refusal>
    ensures { Copies kind s.now out.old result out.new }
{
    let w = ready(measure(kind, s), out.len());
    walk(kind, s, w, out).answer()
}
