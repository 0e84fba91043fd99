// The structures of signatures.
ghost use Rattle.std.specs.Prelude.{[], refl};
ghost use Rattle.format.specs.Kinds.{tpms_signature_rsa, tpms_signature_ecc};
ghost use Rattle.signatures.specs.Parts.{tpms_signature_rsa_parts, tpms_signature_ecc_parts};

use codes::TpmAlgId;
use format::limits;
use steps::marshal::TpmMarshal;
use steps::walk::Walk;
use wire::read::{Read, buffer};
use wire::span::Span;
use wire::unmarshal::TpmUnmarshal;
use wire::width::Width;

#[derive(Clone, Copy)]
pub struct TpmsSignatureRsa {
    pub hash: TpmAlgId,
    pub sig: Span,
}

#[derive(Clone, Copy)]
pub struct TpmsSignatureEcc {
    pub hash: TpmAlgId,
    pub signature_r: Span,
    pub signature_s: Span,
}

impl TpmUnmarshal for TpmsSignatureRsa {
    ghost layout = { tpms_signature_rsa };

    ghost parts = { tpms_signature_rsa_parts };

    // TPMS_SIGNATURE_RSA, read.
    fn unmarshal(s: &[u8], at: usize) -> Read<Self> {
        let (hash, end) = TpmAlgId::unmarshal(s, at)?;
        let (sig, end) = buffer(s, end, Width::Two, limits::MAX_RSA_KEY_BYTES)?;
        Ok((Self { hash, sig }, end))
    }
}

impl TpmMarshal for TpmsSignatureRsa {
    ghost lists = { λ _. [] };

    ghost one_list = { λ _. refl };

    ghost steps = { 2 };

    ghost few = { refl };

    fn walk(self, w: Walk, src: &[u8], out: &mut [u8]) -> Walk {
        w.code(self.hash, out)
            .buffer(limits::MAX_RSA_KEY_BYTES, self.sig, src, out)
    }
}

impl TpmUnmarshal for TpmsSignatureEcc {
    ghost layout = { tpms_signature_ecc };

    ghost parts = { tpms_signature_ecc_parts };

    // TPMS_SIGNATURE_ECC, read.
    fn unmarshal(s: &[u8], at: usize) -> Read<Self> {
        let (hash, end) = TpmAlgId::unmarshal(s, at)?;
        let (signature_r, end) = buffer(s, end, Width::Two, limits::MAX_ECC_KEY_BYTES)?;
        let (signature_s, end) = buffer(s, end, Width::Two, limits::MAX_ECC_KEY_BYTES)?;
        Ok((
            Self {
                hash,
                signature_r,
                signature_s,
            },
            end,
        ))
    }
}

impl TpmMarshal for TpmsSignatureEcc {
    ghost lists = { λ _. [] };

    ghost one_list = { λ _. refl };

    ghost steps = { 3 };

    ghost few = { refl };

    fn walk(self, w: Walk, src: &[u8], out: &mut [u8]) -> Walk {
        w.code(self.hash, out)
            .buffer(limits::MAX_ECC_KEY_BYTES, self.signature_r, src, out)
            .buffer(limits::MAX_ECC_KEY_BYTES, self.signature_s, src, out)
    }
}
