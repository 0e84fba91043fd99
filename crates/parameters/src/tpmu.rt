// The union of parameters, by the key's type. It has the calls of `TpmTagged` (steps).
ghost use Rattle.std.specs.Prelude.{[]};
ghost use Rattle.format.specs.Kinds.{tpmu_public_parms_arm, tpmu_public_parms};
ghost use Rattle.parameters.specs.Parts.{tpmu_public_parms_parts};

use crate::tpms::{TpmsEccParms, TpmsKeyedhashParms, TpmsRsaParms, TpmsSymcipherParms};
use codes::TpmAlgId;
use faults::Refusal;
use format::arms::public_parms_arm;
use steps::marshal::TpmMarshal;
use steps::tagged::TpmTagged;
use steps::walk::Walk;
use wire::read::Read;
use wire::unmarshal::TpmUnmarshal;

#[derive(Clone, Copy)]
pub enum TpmuPublicParms {
    KeyedHash(TpmsKeyedhashParms),
    SymCipher(TpmsSymcipherParms),
    Rsa(TpmsRsaParms),
    Ecc(TpmsEccParms),
    Null,
}

impl TpmTagged for TpmuPublicParms {
    type Tag = TpmAlgId;

    ghost arm = { tpmu_public_parms_arm };

    ghost layout = { tpmu_public_parms };

    ghost parts = { tpmu_public_parms_parts };

    ghost lists = { λ _. [] };

    ghost steps = { 14 };

    fn unmarshal_tagged(tag: TpmAlgId, s: &[u8], at: usize) -> Read<Self> {
        match tag {
            TpmAlgId::KeyedHash => {
                let (x, end) = TpmsKeyedhashParms::unmarshal(s, at)?;
                Ok((Self::KeyedHash(x), end))
            }
            TpmAlgId::SymCipher => {
                let (x, end) = TpmsSymcipherParms::unmarshal(s, at)?;
                Ok((Self::SymCipher(x), end))
            }
            TpmAlgId::Rsa => {
                let (x, end) = TpmsRsaParms::unmarshal(s, at)?;
                Ok((Self::Rsa(x), end))
            }
            TpmAlgId::Ecc => {
                let (x, end) = TpmsEccParms::unmarshal(s, at)?;
                Ok((Self::Ecc(x), end))
            }
            TpmAlgId::Null => Ok((Self::Null, at)),
            _ => Err(Refusal::no_arm(at, u64::from(tag.0))),
        }
    }

    fn matches_tag(self, tag: TpmAlgId) -> bool {
        match self {
            Self::KeyedHash(_) => tag.0 == TpmAlgId::KeyedHash.0,
            Self::SymCipher(_) => tag.0 == TpmAlgId::SymCipher.0,
            Self::Rsa(_) => tag.0 == TpmAlgId::Rsa.0,
            Self::Ecc(_) => tag.0 == TpmAlgId::Ecc.0,
            Self::Null => tag.0 == TpmAlgId::Null.0,
        }
    }

    fn walk_tagged(self, tag: TpmAlgId, w: Walk, src: &[u8], out: &mut [u8]) -> Walk {
        let v = w.due(tag, public_parms_arm(tag), self.matches_tag(tag));
        match self {
            Self::KeyedHash(x) => x.walk(v, src, out),
            Self::SymCipher(x) => x.walk(v, src, out),
            Self::Rsa(x) => x.walk(v, src, out),
            Self::Ecc(x) => x.walk(v, src, out),
            Self::Null => v,
        }
    }
}
