// What a sensitive area keeps, by its type. The union has no Null. It has the calls of `TpmTagged` (steps).
ghost use Rattle.std.specs.Prelude.{[]};
ghost use Rattle.format.specs.Kinds.{tpmu_sensitive_composite_arm, tpmu_sensitive_composite};
ghost use Rattle.sensitive.specs.Parts.{tpmu_sensitive_composite_parts};

use codes::TpmAlgId;
use faults::Refusal;
use format::arms::sensitive_composite_arm;
use format::limits;
use steps::tagged::TpmTagged;
use steps::walk::Walk;
use wire::read::{Read, buffer};
use wire::span::Span;
use wire::width::Width;

#[derive(Clone, Copy)]
pub enum TpmuSensitiveComposite {
    Rsa(Span),
    Ecc(Span),
    Bits(Span),
    Sym(Span),
}

impl TpmTagged for TpmuSensitiveComposite {
    type Tag = TpmAlgId;

    ghost arm = { tpmu_sensitive_composite_arm };

    ghost layout = { tpmu_sensitive_composite };

    ghost parts = { tpmu_sensitive_composite_parts };

    ghost lists = { λ _. [] };

    ghost steps = { 2 };

    fn unmarshal_tagged(tag: TpmAlgId, s: &[u8], at: usize) -> Read<Self> {
        match tag {
            TpmAlgId::Rsa => {
                let (x, end) = buffer(s, at, Width::Two, limits::MAX_PRIVATE_KEY_RSA)?;
                Ok((Self::Rsa(x), end))
            }
            TpmAlgId::Ecc => {
                let (x, end) = buffer(s, at, Width::Two, limits::MAX_ECC_KEY_BYTES)?;
                Ok((Self::Ecc(x), end))
            }
            TpmAlgId::KeyedHash => {
                let (x, end) = buffer(s, at, Width::Two, limits::MAX_SENSITIVE_DATA)?;
                Ok((Self::Bits(x), end))
            }
            TpmAlgId::SymCipher => {
                let (x, end) = buffer(s, at, Width::Two, limits::MAX_SYM_KEY_BYTES)?;
                Ok((Self::Sym(x), end))
            }
            _ => Err(Refusal::no_arm(at, u64::from(tag.0))),
        }
    }

    fn matches_tag(self, tag: TpmAlgId) -> bool {
        match self {
            Self::Rsa(_) => tag.0 == TpmAlgId::Rsa.0,
            Self::Ecc(_) => tag.0 == TpmAlgId::Ecc.0,
            Self::Bits(_) => tag.0 == TpmAlgId::KeyedHash.0,
            Self::Sym(_) => tag.0 == TpmAlgId::SymCipher.0,
        }
    }

    fn walk_tagged(self, tag: TpmAlgId, w: Walk, src: &[u8], out: &mut [u8]) -> Walk {
        let v = w.due(tag, sensitive_composite_arm(tag), self.matches_tag(tag));
        match self {
            Self::Rsa(x) => v.buffer(limits::MAX_PRIVATE_KEY_RSA, x, src, out),
            Self::Ecc(x) => v.buffer(limits::MAX_ECC_KEY_BYTES, x, src, out),
            Self::Bits(x) => v.buffer(limits::MAX_SENSITIVE_DATA, x, src, out),
            Self::Sym(x) => v.buffer(limits::MAX_SYM_KEY_BYTES, x, src, out),
        }
    }
}
