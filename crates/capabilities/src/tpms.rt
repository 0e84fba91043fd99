// Kind 15, TPMS_CAPABILITY_DATA: a capability, and its list. It has the calls that a kind has (ciphers, tpmt.rt); its items are those of the arm that it
// holds.
ghost use Rattle.std.specs.Prelude.{refl};
ghost use Rattle.format.specs.Kinds.{tpms_capability_data};
ghost use Rattle.capabilities.specs.Parts.{list_of, tpmu_capabilities_lists, tpms_capability_data_parts};

use crate::tpmu::TpmuCapabilities;
use codes::TpmCap;
use format::list::ListOf;
use lists::listed::Listed;
use steps::marshal::TpmMarshal;
use steps::tagged::TpmTagged;
use steps::walk::Walk;
use wire::read::Read;
use wire::unmarshal::TpmUnmarshal;

#[derive(Clone, Copy)]
pub struct TpmsCapabilityData {
    pub capability: TpmCap,
    pub data: TpmuCapabilities,
}

impl TpmUnmarshal for TpmsCapabilityData {
    ghost layout = { tpms_capability_data };

    ghost parts = { tpms_capability_data_parts };

    // Kind 15, TPMS_CAPABILITY_DATA, read.
    fn unmarshal(s: &[u8], at: usize) -> Read<Self> {
        let (capability, end) = TpmCap::unmarshal(s, at)?;
        let (data, end) = TpmuCapabilities::unmarshal_tagged(capability, s, end)?;
        Ok((Self { capability, data }, end))
    }
}

impl TpmMarshal for TpmsCapabilityData {
    ghost lists = { λ s. tpmu_capabilities_lists s.data };

    ghost one_list = { λ _. refl };

    ghost steps = { 3 };

    ghost few = { refl };

    fn walk(self, w: Walk, src: &[u8], out: &mut [u8]) -> Walk {
        self.data
            .walk_tagged(self.capability, w.code(self.capability, out), src, out)
    }
}

impl Listed for TpmsCapabilityData {
    ghost which = { λ s. list_of s.data };

    fn which(self) -> ListOf {
        self.data.list_of()
    }
}
