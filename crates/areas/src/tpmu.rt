// The public part of an NV area, by its handle type. It has the calls of `TpmTagged` (steps).
ghost use Rattle.std.specs.Prelude.{[]};
ghost use Rattle.format.specs.Kinds.{tpmu_nv_public2_arm, tpmu_nv_public2};
ghost use Rattle.areas.specs.Parts.{tpmu_nv_public2_parts};

use crate::tpms::{TpmsNvPublic, TpmsNvPublicExpAttr};
use codes::TpmHt;
use faults::Refusal;
use format::arms::nv_public2_arm;
use steps::marshal::TpmMarshal;
use steps::tagged::TpmTagged;
use steps::walk::Walk;
use wire::read::Read;
use wire::unmarshal::TpmUnmarshal;

#[derive(Clone, Copy)]
pub enum TpmuNvPublic2 {
    NvIndex(TpmsNvPublic),
    ExternalNv(TpmsNvPublicExpAttr),
    PermanentNv(TpmsNvPublic),
}

impl TpmTagged for TpmuNvPublic2 {
    type Tag = TpmHt;

    ghost arm = { tpmu_nv_public2_arm };

    ghost layout = { tpmu_nv_public2 };

    ghost parts = { tpmu_nv_public2_parts };

    ghost lists = { λ _. [] };

    ghost steps = { 6 };

    fn unmarshal_tagged(tag: TpmHt, s: &[u8], at: usize) -> Read<Self> {
        match tag {
            TpmHt::NvIndex => {
                let (x, end) = TpmsNvPublic::unmarshal(s, at)?;
                Ok((Self::NvIndex(x), end))
            }
            TpmHt::ExternalNv => {
                let (x, end) = TpmsNvPublicExpAttr::unmarshal(s, at)?;
                Ok((Self::ExternalNv(x), end))
            }
            TpmHt::PermanentNv => {
                let (x, end) = TpmsNvPublic::unmarshal(s, at)?;
                Ok((Self::PermanentNv(x), end))
            }
            _ => Err(Refusal::no_arm(at, u64::from(tag.0))),
        }
    }

    fn matches_tag(self, tag: TpmHt) -> bool {
        match self {
            Self::NvIndex(_) => tag.0 == TpmHt::NvIndex.0,
            Self::ExternalNv(_) => tag.0 == TpmHt::ExternalNv.0,
            Self::PermanentNv(_) => tag.0 == TpmHt::PermanentNv.0,
        }
    }

    fn walk_tagged(self, tag: TpmHt, w: Walk, src: &[u8], out: &mut [u8]) -> Walk {
        let v = w.due(tag, nv_public2_arm(tag), self.matches_tag(tag));
        match self {
            Self::NvIndex(x) => x.walk(v, src, out),
            Self::ExternalNv(x) => x.walk(v, src, out),
            Self::PermanentNv(x) => x.walk(v, src, out),
        }
    }
}
