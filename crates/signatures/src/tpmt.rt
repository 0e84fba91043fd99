// Kind 10: the selector and the signature. It has the calls that a kind has (ciphers, tpmt.rt).
ghost use Rattle.std.specs.Prelude.{[], refl};
ghost use Rattle.format.specs.Kinds.{tpmt_signature};
ghost use Rattle.signatures.specs.Parts.{tpmt_signature_parts};

use crate::tpmu::TpmuSignature;
use codes::TpmAlgId;
use steps::marshal::{Listless, TpmMarshal};
use steps::tagged::TpmTagged;
use steps::walk::Walk;
use wire::read::Read;
use wire::unmarshal::TpmUnmarshal;

#[derive(Clone, Copy)]
pub struct TpmtSignature {
    pub sig_alg: TpmAlgId,
    pub signature: TpmuSignature,
}

impl TpmUnmarshal for TpmtSignature {
    ghost layout = { tpmt_signature };

    ghost parts = { tpmt_signature_parts };

    // Kind 10, TPMT_SIGNATURE, read.
    fn unmarshal(s: &[u8], at: usize) -> Read<Self> {
        let (sig_alg, end) = TpmAlgId::unmarshal(s, at)?;
        let (signature, end) = TpmuSignature::unmarshal_tagged(sig_alg, s, end)?;
        Ok((Self { sig_alg, signature }, end))
    }
}

impl TpmMarshal for TpmtSignature {
    ghost lists = { λ _. [] };

    ghost one_list = { λ _. refl };

    ghost steps = { 5 };

    ghost few = { refl };

    fn walk(self, w: Walk, src: &[u8], out: &mut [u8]) -> Walk {
        self.signature
            .walk_tagged(self.sig_alg, w.code(self.sig_alg, out), src, out)
    }
}

impl Listless for TpmtSignature {}
