// Kinds 3 to 8: a selector, and the union that it chooses from. Each has the calls that a kind has (ciphers, tpmt.rt).
ghost use Rattle.std.specs.Prelude.{[], refl};
ghost use Rattle.format.specs.Kinds.{tpmt_kdf_scheme, tpmt_keyedhash_scheme, tpmt_sig_scheme, tpmt_asym_scheme};
ghost use Rattle.schemes.specs.Parts.{tpmt_kdf_scheme_parts, tpmt_keyedhash_scheme_parts, tpmt_sig_scheme_parts, tpmt_rsa_scheme_parts, tpmt_ecc_scheme_parts, tpmt_rsa_decrypt_parts};

use crate::tpmu::{TpmuAsymScheme, TpmuKdfScheme, TpmuKeyedhashScheme, TpmuSigScheme};
use codes::TpmAlgId;
use steps::marshal::{Listless, TpmMarshal};
use steps::tagged::TpmTagged;
use steps::walk::Walk;
use wire::read::Read;
use wire::unmarshal::TpmUnmarshal;

#[derive(Clone, Copy)]
pub struct TpmtKdfScheme {
    pub scheme: TpmAlgId,
    pub details: TpmuKdfScheme,
}

#[derive(Clone, Copy)]
pub struct TpmtKeyedhashScheme {
    pub scheme: TpmAlgId,
    pub details: TpmuKeyedhashScheme,
}

#[derive(Clone, Copy)]
pub struct TpmtSigScheme {
    pub scheme: TpmAlgId,
    pub details: TpmuSigScheme,
}

#[derive(Clone, Copy)]
pub struct TpmtRsaScheme {
    pub scheme: TpmAlgId,
    pub details: TpmuAsymScheme,
}

#[derive(Clone, Copy)]
pub struct TpmtEccScheme {
    pub scheme: TpmAlgId,
    pub details: TpmuAsymScheme,
}

#[derive(Clone, Copy)]
pub struct TpmtRsaDecrypt {
    pub scheme: TpmAlgId,
    pub details: TpmuAsymScheme,
}

impl TpmUnmarshal for TpmtKdfScheme {
    ghost layout = { tpmt_kdf_scheme };

    ghost parts = { tpmt_kdf_scheme_parts };

    // Kind 3, TPMT_KDF_SCHEME, read.
    fn unmarshal(s: &[u8], at: usize) -> Read<Self> {
        let (scheme, end) = TpmAlgId::unmarshal(s, at)?;
        let (details, end) = TpmuKdfScheme::unmarshal_tagged(scheme, s, end)?;
        Ok((Self { scheme, details }, end))
    }
}

impl TpmMarshal for TpmtKdfScheme {
    ghost lists = { λ _. [] };

    ghost one_list = { λ _. refl };

    ghost steps = { 3 };

    ghost few = { refl };

    fn walk(self, w: Walk, src: &[u8], out: &mut [u8]) -> Walk {
        self.details
            .walk_tagged(self.scheme, w.code(self.scheme, out), src, out)
    }
}

impl Listless for TpmtKdfScheme {}

impl TpmUnmarshal for TpmtKeyedhashScheme {
    ghost layout = { tpmt_keyedhash_scheme };

    ghost parts = { tpmt_keyedhash_scheme_parts };

    // Kind 4, TPMT_KEYEDHASH_SCHEME, read.
    fn unmarshal(s: &[u8], at: usize) -> Read<Self> {
        let (scheme, end) = TpmAlgId::unmarshal(s, at)?;
        let (details, end) = TpmuKeyedhashScheme::unmarshal_tagged(scheme, s, end)?;
        Ok((Self { scheme, details }, end))
    }
}

impl TpmMarshal for TpmtKeyedhashScheme {
    ghost lists = { λ _. [] };

    ghost one_list = { λ _. refl };

    ghost steps = { 4 };

    ghost few = { refl };

    fn walk(self, w: Walk, src: &[u8], out: &mut [u8]) -> Walk {
        self.details
            .walk_tagged(self.scheme, w.code(self.scheme, out), src, out)
    }
}

impl Listless for TpmtKeyedhashScheme {}

impl TpmUnmarshal for TpmtSigScheme {
    ghost layout = { tpmt_sig_scheme };

    ghost parts = { tpmt_sig_scheme_parts };

    // Kind 5, TPMT_SIG_SCHEME, read.
    fn unmarshal(s: &[u8], at: usize) -> Read<Self> {
        let (scheme, end) = TpmAlgId::unmarshal(s, at)?;
        let (details, end) = TpmuSigScheme::unmarshal_tagged(scheme, s, end)?;
        Ok((Self { scheme, details }, end))
    }
}

impl TpmMarshal for TpmtSigScheme {
    ghost lists = { λ _. [] };

    ghost one_list = { λ _. refl };

    ghost steps = { 4 };

    ghost few = { refl };

    fn walk(self, w: Walk, src: &[u8], out: &mut [u8]) -> Walk {
        self.details
            .walk_tagged(self.scheme, w.code(self.scheme, out), src, out)
    }
}

impl Listless for TpmtSigScheme {}

impl TpmUnmarshal for TpmtRsaScheme {
    ghost layout = { tpmt_asym_scheme };

    ghost parts = { tpmt_rsa_scheme_parts };

    // Kind 6, TPMT_RSA_SCHEME, read.
    fn unmarshal(s: &[u8], at: usize) -> Read<Self> {
        let (scheme, end) = TpmAlgId::unmarshal(s, at)?;
        let (details, end) = TpmuAsymScheme::unmarshal_tagged(scheme, s, end)?;
        Ok((Self { scheme, details }, end))
    }
}

impl TpmMarshal for TpmtRsaScheme {
    ghost lists = { λ _. [] };

    ghost one_list = { λ _. refl };

    ghost steps = { 4 };

    ghost few = { refl };

    fn walk(self, w: Walk, src: &[u8], out: &mut [u8]) -> Walk {
        self.details
            .walk_tagged(self.scheme, w.code(self.scheme, out), src, out)
    }
}

impl Listless for TpmtRsaScheme {}

impl TpmUnmarshal for TpmtEccScheme {
    ghost layout = { tpmt_asym_scheme };

    ghost parts = { tpmt_ecc_scheme_parts };

    // Kind 7, TPMT_ECC_SCHEME, read.
    fn unmarshal(s: &[u8], at: usize) -> Read<Self> {
        let (scheme, end) = TpmAlgId::unmarshal(s, at)?;
        let (details, end) = TpmuAsymScheme::unmarshal_tagged(scheme, s, end)?;
        Ok((Self { scheme, details }, end))
    }
}

impl TpmMarshal for TpmtEccScheme {
    ghost lists = { λ _. [] };

    ghost one_list = { λ _. refl };

    ghost steps = { 4 };

    ghost few = { refl };

    fn walk(self, w: Walk, src: &[u8], out: &mut [u8]) -> Walk {
        self.details
            .walk_tagged(self.scheme, w.code(self.scheme, out), src, out)
    }
}

impl Listless for TpmtEccScheme {}

impl TpmUnmarshal for TpmtRsaDecrypt {
    ghost layout = { tpmt_asym_scheme };

    ghost parts = { tpmt_rsa_decrypt_parts };

    // Kind 8, TPMT_RSA_DECRYPT, read.
    fn unmarshal(s: &[u8], at: usize) -> Read<Self> {
        let (scheme, end) = TpmAlgId::unmarshal(s, at)?;
        let (details, end) = TpmuAsymScheme::unmarshal_tagged(scheme, s, end)?;
        Ok((Self { scheme, details }, end))
    }
}

impl TpmMarshal for TpmtRsaDecrypt {
    ghost lists = { λ _. [] };

    ghost one_list = { λ _. refl };

    ghost steps = { 4 };

    ghost few = { refl };

    fn walk(self, w: Walk, src: &[u8], out: &mut [u8]) -> Walk {
        self.details
            .walk_tagged(self.scheme, w.code(self.scheme, out), src, out)
    }
}

impl Listless for TpmtRsaDecrypt {}
