// The union of signatures, by the signature's algorithm. It has the calls of `TpmTagged` (steps).
ghost use Rattle.std.specs.Prelude.{[]};
ghost use Rattle.format.specs.Kinds.{tpmu_signature_arm, tpmu_signature};
ghost use Rattle.signatures.specs.Parts.{tpmu_signature_parts};

use crate::tpms::{TpmsSignatureEcc, TpmsSignatureRsa};
use ciphers::tpmt::TpmtHa;
use codes::TpmAlgId;
use faults::Refusal;
use format::arms::signature_arm;
use steps::marshal::TpmMarshal;
use steps::tagged::TpmTagged;
use steps::walk::Walk;
use wire::read::Read;
use wire::unmarshal::TpmUnmarshal;

#[derive(Clone, Copy)]
pub enum TpmuSignature {
    Rsassa(TpmsSignatureRsa),
    Rsapss(TpmsSignatureRsa),
    Ecdsa(TpmsSignatureEcc),
    Ecdaa(TpmsSignatureEcc),
    Sm2(TpmsSignatureEcc),
    Ecschnorr(TpmsSignatureEcc),
    Hmac(TpmtHa),
    Null,
}

impl TpmTagged for TpmuSignature {
    type Tag = TpmAlgId;

    ghost arm = { tpmu_signature_arm };

    ghost layout = { tpmu_signature };

    ghost parts = { tpmu_signature_parts };

    ghost lists = { λ _. [] };

    ghost steps = { 4 };

    fn unmarshal_tagged(tag: TpmAlgId, s: &[u8], at: usize) -> Read<Self> {
        match tag {
            TpmAlgId::Rsassa => {
                let (x, end) = TpmsSignatureRsa::unmarshal(s, at)?;
                Ok((Self::Rsassa(x), end))
            }
            TpmAlgId::Rsapss => {
                let (x, end) = TpmsSignatureRsa::unmarshal(s, at)?;
                Ok((Self::Rsapss(x), end))
            }
            TpmAlgId::Ecdsa => {
                let (x, end) = TpmsSignatureEcc::unmarshal(s, at)?;
                Ok((Self::Ecdsa(x), end))
            }
            TpmAlgId::Ecdaa => {
                let (x, end) = TpmsSignatureEcc::unmarshal(s, at)?;
                Ok((Self::Ecdaa(x), end))
            }
            TpmAlgId::Sm2 => {
                let (x, end) = TpmsSignatureEcc::unmarshal(s, at)?;
                Ok((Self::Sm2(x), end))
            }
            TpmAlgId::Ecschnorr => {
                let (x, end) = TpmsSignatureEcc::unmarshal(s, at)?;
                Ok((Self::Ecschnorr(x), end))
            }
            TpmAlgId::Hmac => {
                let (x, end) = TpmtHa::unmarshal(s, at)?;
                Ok((Self::Hmac(x), end))
            }
            TpmAlgId::Null => Ok((Self::Null, at)),
            _ => Err(Refusal::no_arm(at, u64::from(tag.0))),
        }
    }

    fn matches_tag(self, tag: TpmAlgId) -> bool {
        match self {
            Self::Rsassa(_) => tag.0 == TpmAlgId::Rsassa.0,
            Self::Rsapss(_) => tag.0 == TpmAlgId::Rsapss.0,
            Self::Ecdsa(_) => tag.0 == TpmAlgId::Ecdsa.0,
            Self::Ecdaa(_) => tag.0 == TpmAlgId::Ecdaa.0,
            Self::Sm2(_) => tag.0 == TpmAlgId::Sm2.0,
            Self::Ecschnorr(_) => tag.0 == TpmAlgId::Ecschnorr.0,
            Self::Hmac(_) => tag.0 == TpmAlgId::Hmac.0,
            Self::Null => tag.0 == TpmAlgId::Null.0,
        }
    }

    fn walk_tagged(self, tag: TpmAlgId, w: Walk, src: &[u8], out: &mut [u8]) -> Walk {
        let v = w.due(tag, signature_arm(tag), self.matches_tag(tag));
        match self {
            Self::Rsassa(x) => x.walk(v, src, out),
            Self::Rsapss(x) => x.walk(v, src, out),
            Self::Ecdsa(x) => x.walk(v, src, out),
            Self::Ecdaa(x) => x.walk(v, src, out),
            Self::Sm2(x) => x.walk(v, src, out),
            Self::Ecschnorr(x) => x.walk(v, src, out),
            Self::Hmac(x) => x.walk(v, src, out),
            Self::Null => v,
        }
    }
}
