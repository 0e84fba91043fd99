// What is unique of a public area, by the type, as the parameters are. It has the calls of `TpmTagged` (steps).
ghost use Rattle.std.specs.Prelude.{[]};
ghost use Rattle.format.specs.Kinds.{tpmu_public_id_arm, tpmu_public_id};
ghost use Rattle.keys.specs.Parts.{tpmu_public_id_parts};

use crate::tpms::TpmsEccPoint;
use codes::TpmAlgId;
use faults::Refusal;
use format::arms::public_id_arm;
use format::limits;
use steps::marshal::TpmMarshal;
use steps::tagged::TpmTagged;
use steps::walk::Walk;
use wire::read::{Read, buffer};
use wire::span::Span;
use wire::unmarshal::TpmUnmarshal;
use wire::width::Width;

#[derive(Clone, Copy)]
pub enum TpmuPublicId {
    KeyedHash(Span),
    SymCipher(Span),
    Rsa(Span),
    Ecc(TpmsEccPoint),
    Null,
}

impl TpmTagged for TpmuPublicId {
    type Tag = TpmAlgId;

    ghost arm = { tpmu_public_id_arm };

    ghost layout = { tpmu_public_id };

    ghost parts = { tpmu_public_id_parts };

    ghost lists = { λ _. [] };

    ghost steps = { 3 };

    fn unmarshal_tagged(tag: TpmAlgId, s: &[u8], at: usize) -> Read<Self> {
        match tag {
            TpmAlgId::KeyedHash => {
                let (x, end) = buffer(s, at, Width::Two, limits::MAX_DIGEST_SIZE)?;
                Ok((Self::KeyedHash(x), end))
            }
            TpmAlgId::SymCipher => {
                let (x, end) = buffer(s, at, Width::Two, limits::MAX_SYM_KEY_BYTES)?;
                Ok((Self::SymCipher(x), end))
            }
            TpmAlgId::Rsa => {
                let (x, end) = buffer(s, at, Width::Two, limits::MAX_RSA_KEY_BYTES)?;
                Ok((Self::Rsa(x), end))
            }
            TpmAlgId::Ecc => {
                let (x, end) = TpmsEccPoint::unmarshal(s, at)?;
                Ok((Self::Ecc(x), end))
            }
            TpmAlgId::Null => Ok((Self::Null, at)),
            _ => Err(Refusal::no_arm(at, u64::from(tag.0))),
        }
    }

    fn matches_tag(self, tag: TpmAlgId) -> bool {
        match self {
            Self::KeyedHash(_) => tag.0 == TpmAlgId::KeyedHash.0,
            Self::SymCipher(_) => tag.0 == TpmAlgId::SymCipher.0,
            Self::Rsa(_) => tag.0 == TpmAlgId::Rsa.0,
            Self::Ecc(_) => tag.0 == TpmAlgId::Ecc.0,
            Self::Null => tag.0 == TpmAlgId::Null.0,
        }
    }

    fn walk_tagged(self, tag: TpmAlgId, w: Walk, src: &[u8], out: &mut [u8]) -> Walk {
        let v = w.due(tag, public_id_arm(tag), self.matches_tag(tag));
        match self {
            Self::KeyedHash(x) => v.buffer(limits::MAX_DIGEST_SIZE, x, src, out),
            Self::SymCipher(x) => v.buffer(limits::MAX_SYM_KEY_BYTES, x, src, out),
            Self::Rsa(x) => v.buffer(limits::MAX_RSA_KEY_BYTES, x, src, out),
            Self::Ecc(x) => x.walk(v, src, out),
            Self::Null => v,
        }
    }
}
