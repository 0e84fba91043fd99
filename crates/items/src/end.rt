// Where an item ends, by its list.
ghost use Rattle.std.specs.Prelude.{◌≡◌};
ghost use Rattle.wire.specs.Answers.{measure_answer};
ghost use Rattle.wire.specs.Reading.{read, end_of};
ghost use Rattle.format.specs.Kinds.{item_layout};

use crate::tpms::{
    TpmsActData, TpmsAlgProperty, TpmsPcrSelection, TpmsTaggedPolicy, TpmsTaggedProperty,
};
use codes::TpmEccCurve;
use faults::Refusal;
use format::list::ListOf;
use wire::unmarshal::TpmUnmarshal;

// Where the item that stands at `at` ends.
pub fn item_end(which: ListOf, s: &[u8], at: usize) -> Result<usize, Refusal>
    ensures { measure_answer result ≡ end_of (read (item_layout which) s.now at) }
{
    match which {
        ListOf::AlgProperty => TpmsAlgProperty::end(s, at),
        ListOf::Handle | ListOf::Cca | ListOf::Cc => u32::end(s, at),
        ListOf::PcrSelection => TpmsPcrSelection::end(s, at),
        ListOf::TaggedTpmProperty => TpmsTaggedProperty::end(s, at),
        ListOf::EccCurve => TpmEccCurve::end(s, at),
        ListOf::TaggedPolicy => TpmsTaggedPolicy::end(s, at),
        ListOf::ActData => TpmsActData::end(s, at),
    }
}
