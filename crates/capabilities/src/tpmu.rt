// The union of capabilities: a list for each, by the capability's code. It has the calls of `TpmTagged` (steps), and what its arm is by
// rows: the code, the list and the span of each.
ghost use Rattle.std.specs.Prelude.{◌≡◌};
ghost use Rattle.format.specs.Kinds.{tpmu_capabilities_arm, tpmu_capabilities};
ghost use Rattle.capabilities.specs.Parts.{arm_for, code_of, list_of, items_of, tpmu_capabilities_parts, tpmu_capabilities_lists};

use crate::list::{
    TpmlActData, TpmlAlgProperty, TpmlCc, TpmlCca, TpmlEccCurve, TpmlHandle, TpmlTaggedPolicy,
    TpmlTaggedTpmProperty,
};
use attest::list::TpmlPcrSelection;
use codes::TpmCap;
use faults::Refusal;
use format::arms::capabilities_arm;
use format::list::ListOf;
use lists::list::{list, read_list};
use steps::tagged::TpmTagged;
use steps::walk::Walk;
use wire::read::Read;
use wire::span::Span;

#[derive(Clone, Copy)]
pub enum TpmuCapabilities {
    Algs(TpmlAlgProperty),
    Handles(TpmlHandle),
    Commands(TpmlCca),
    PpCommands(TpmlCc),
    AuditCommands(TpmlCc),
    Pcrs(TpmlPcrSelection),
    TpmProperties(TpmlTaggedTpmProperty),
    EccCurves(TpmlEccCurve),
    AuthPolicies(TpmlTaggedPolicy),
    Act(TpmlActData),
}

impl TpmuCapabilities {
    // The arm of a capability, with that list. One without an arm is not asked for; the last arm stands for it.
    fn of(tag: TpmCap, items: Span) -> Self
        ensures { result ≡ arm_for tag.0 items }
    {
        match tag {
            TpmCap::Algs => Self::Algs(TpmlAlgProperty { items }),
            TpmCap::Handles => Self::Handles(TpmlHandle { items }),
            TpmCap::Commands => Self::Commands(TpmlCca { items }),
            TpmCap::PpCommands => Self::PpCommands(TpmlCc { items }),
            TpmCap::AuditCommands => Self::AuditCommands(TpmlCc { items }),
            TpmCap::Pcrs => Self::Pcrs(TpmlPcrSelection { items }),
            TpmCap::TpmProperties => Self::TpmProperties(TpmlTaggedTpmProperty { items }),
            TpmCap::EccCurves => Self::EccCurves(TpmlEccCurve { items }),
            TpmCap::AuthPolicies => Self::AuthPolicies(TpmlTaggedPolicy { items }),
            _ => Self::Act(TpmlActData { items }),
        }
    }

    // The code of the capability that chooses the arm.
    fn code(self) -> TpmCap
        ensures { result.0 ≡ code_of self }
    {
        match self {
            Self::Algs(_) => TpmCap::Algs,
            Self::Handles(_) => TpmCap::Handles,
            Self::Commands(_) => TpmCap::Commands,
            Self::PpCommands(_) => TpmCap::PpCommands,
            Self::AuditCommands(_) => TpmCap::AuditCommands,
            Self::Pcrs(_) => TpmCap::Pcrs,
            Self::TpmProperties(_) => TpmCap::TpmProperties,
            Self::EccCurves(_) => TpmCap::EccCurves,
            Self::AuthPolicies(_) => TpmCap::AuthPolicies,
            Self::Act(_) => TpmCap::Act,
        }
    }

    // Which list the arm holds.
    pub fn list_of(self) -> ListOf
        ensures { result ≡ list_of self }
    {
        match self {
            Self::Algs(_) => ListOf::AlgProperty,
            Self::Handles(_) => ListOf::Handle,
            Self::Commands(_) => ListOf::Cca,
            Self::PpCommands(_) => ListOf::Cc,
            Self::AuditCommands(_) => ListOf::Cc,
            Self::Pcrs(_) => ListOf::PcrSelection,
            Self::TpmProperties(_) => ListOf::TaggedTpmProperty,
            Self::EccCurves(_) => ListOf::EccCurve,
            Self::AuthPolicies(_) => ListOf::TaggedPolicy,
            Self::Act(_) => ListOf::ActData,
        }
    }

    // The list, from its count on.
    pub fn items(self) -> Span
        ensures { result ≡ items_of self }
    {
        match self {
            Self::Algs(x) => x.items,
            Self::Handles(x) => x.items,
            Self::Commands(x) => x.items,
            Self::PpCommands(x) => x.items,
            Self::AuditCommands(x) => x.items,
            Self::Pcrs(x) => x.items,
            Self::TpmProperties(x) => x.items,
            Self::EccCurves(x) => x.items,
            Self::AuthPolicies(x) => x.items,
            Self::Act(x) => x.items,
        }
    }
}

impl TpmTagged for TpmuCapabilities {
    type Tag = TpmCap;

    ghost arm = { tpmu_capabilities_arm };

    ghost layout = { tpmu_capabilities };

    ghost parts = { tpmu_capabilities_parts };

    ghost lists = { tpmu_capabilities_lists };

    ghost steps = { 2 };

    fn unmarshal_tagged(tag: TpmCap, s: &[u8], at: usize) -> Read<Self> {
        match capabilities_arm(tag) {
            Some(_) => {
                let arm = Self::of(tag, Span::new(at, 0));
                let (items, end) = read_list(arm.list_of(), s, at)?;
                Ok((Self::of(tag, items), end))
            }
            None => Err(Refusal::no_arm(at, u64::from(tag.0))),
        }
    }

    fn matches_tag(self, tag: TpmCap) -> bool {
        self.code().0 == tag.0
    }

    fn walk_tagged(self, tag: TpmCap, w: Walk, src: &[u8], out: &mut [u8]) -> Walk {
        let v = w.due(tag, capabilities_arm(tag), self.matches_tag(tag));
        list(v, self.list_of(), self.items(), src, out)
    }
}
