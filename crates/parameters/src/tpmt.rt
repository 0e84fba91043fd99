// Kind 9: a key's type, and its parameters. It has the calls that a kind has (ciphers, tpmt.rt).
ghost use Rattle.std.specs.Prelude.{[], refl};
ghost use Rattle.format.specs.Kinds.{tpmt_public_parms};
ghost use Rattle.parameters.specs.Parts.{tpmt_public_parms_parts};

use crate::tpmu::TpmuPublicParms;
use codes::TpmAlgId;
use steps::marshal::{Listless, TpmMarshal};
use steps::tagged::TpmTagged;
use steps::walk::Walk;
use wire::read::Read;
use wire::unmarshal::TpmUnmarshal;

#[derive(Clone, Copy)]
pub struct TpmtPublicParms {
    pub object_type: TpmAlgId,
    pub parameters: TpmuPublicParms,
}

impl TpmUnmarshal for TpmtPublicParms {
    ghost layout = { tpmt_public_parms };

    ghost parts = { tpmt_public_parms_parts };

    // Kind 9, TPMT_PUBLIC_PARMS, read.
    fn unmarshal(s: &[u8], at: usize) -> Read<Self> {
        let (object_type, end) = TpmAlgId::unmarshal(s, at)?;
        let (parameters, end) = TpmuPublicParms::unmarshal_tagged(object_type, s, end)?;
        Ok((
            Self {
                object_type,
                parameters,
            },
            end,
        ))
    }
}

impl TpmMarshal for TpmtPublicParms {
    ghost lists = { λ _. [] };

    ghost one_list = { λ _. refl };

    ghost steps = { 15 };

    ghost few = { refl };

    fn walk(self, w: Walk, src: &[u8], out: &mut [u8]) -> Walk {
        self.parameters
            .walk_tagged(self.object_type, w.code(self.object_type, out), src, out)
    }
}

impl Listless for TpmtPublicParms {}
