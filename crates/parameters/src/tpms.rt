// The structures of parameters.
ghost use Rattle.std.specs.Prelude.{[], refl};
ghost use Rattle.format.specs.Kinds.{tpmt_sym_def, tpmt_keyedhash_scheme, tpms_rsa_parms, tpms_ecc_parms};
ghost use Rattle.parameters.specs.Parts.{tpms_keyedhash_parms_parts, tpms_symcipher_parms_parts, tpms_rsa_parms_parts, tpms_ecc_parms_parts};

use ciphers::tpmt::TpmtSymDef;
use codes::TpmEccCurve;
use schemes::tpmt::{TpmtEccScheme, TpmtKdfScheme, TpmtKeyedhashScheme, TpmtRsaScheme};
use steps::marshal::TpmMarshal;
use steps::walk::Walk;
use wire::read::Read;
use wire::unmarshal::TpmUnmarshal;

#[derive(Clone, Copy)]
pub struct TpmsKeyedhashParms {
    pub scheme: TpmtKeyedhashScheme,
}

#[derive(Clone, Copy)]
pub struct TpmsSymcipherParms {
    pub sym: TpmtSymDef,
}

#[derive(Clone, Copy)]
pub struct TpmsRsaParms {
    pub symmetric: TpmtSymDef,
    pub scheme: TpmtRsaScheme,
    pub key_bits: u16,
    pub exponent: u32,
}

#[derive(Clone, Copy)]
pub struct TpmsEccParms {
    pub symmetric: TpmtSymDef,
    pub scheme: TpmtEccScheme,
    pub curve_id: TpmEccCurve,
    pub kdf: TpmtKdfScheme,
}

impl TpmUnmarshal for TpmsKeyedhashParms {
    ghost layout = { tpmt_keyedhash_scheme };

    ghost parts = { tpms_keyedhash_parms_parts };

    // TPMS_KEYEDHASH_PARMS, read.
    fn unmarshal(s: &[u8], at: usize) -> Read<Self> {
        let (scheme, end) = TpmtKeyedhashScheme::unmarshal(s, at)?;
        Ok((Self { scheme }, end))
    }
}

impl TpmMarshal for TpmsKeyedhashParms {
    ghost lists = { λ _. [] };

    ghost one_list = { λ _. refl };

    ghost steps = { 4 };

    ghost few = { refl };

    fn walk(self, w: Walk, src: &[u8], out: &mut [u8]) -> Walk {
        self.scheme.walk(w, src, out)
    }
}

impl TpmUnmarshal for TpmsSymcipherParms {
    ghost layout = { tpmt_sym_def };

    ghost parts = { tpms_symcipher_parms_parts };

    // TPMS_SYMCIPHER_PARMS, read.
    fn unmarshal(s: &[u8], at: usize) -> Read<Self> {
        let (sym, end) = TpmtSymDef::unmarshal(s, at)?;
        Ok((Self { sym }, end))
    }
}

impl TpmMarshal for TpmsSymcipherParms {
    ghost lists = { λ _. [] };

    ghost one_list = { λ _. refl };

    ghost steps = { 5 };

    ghost few = { refl };

    fn walk(self, w: Walk, src: &[u8], out: &mut [u8]) -> Walk {
        self.sym.walk(w, src, out)
    }
}

impl TpmUnmarshal for TpmsRsaParms {
    ghost layout = { tpms_rsa_parms };

    ghost parts = { tpms_rsa_parms_parts };

    // TPMS_RSA_PARMS, read.
    fn unmarshal(s: &[u8], at: usize) -> Read<Self> {
        let (symmetric, end) = TpmtSymDef::unmarshal(s, at)?;
        let (scheme, end) = TpmtRsaScheme::unmarshal(s, end)?;
        let (key_bits, end) = u16::unmarshal(s, end)?;
        let (exponent, end) = u32::unmarshal(s, end)?;
        Ok((
            Self {
                symmetric,
                scheme,
                key_bits,
                exponent,
            },
            end,
        ))
    }
}

impl TpmMarshal for TpmsRsaParms {
    ghost lists = { λ _. [] };

    ghost one_list = { λ _. refl };

    ghost steps = { 11 };

    ghost few = { refl };

    fn walk(self, w: Walk, src: &[u8], out: &mut [u8]) -> Walk {
        let v = self.symmetric.walk(w, src, out);
        let u = self.scheme.walk(v, src, out);
        u.number(self.key_bits, out).number(self.exponent, out)
    }
}

impl TpmUnmarshal for TpmsEccParms {
    ghost layout = { tpms_ecc_parms };

    ghost parts = { tpms_ecc_parms_parts };

    // TPMS_ECC_PARMS, read.
    fn unmarshal(s: &[u8], at: usize) -> Read<Self> {
        let (symmetric, end) = TpmtSymDef::unmarshal(s, at)?;
        let (scheme, end) = TpmtEccScheme::unmarshal(s, end)?;
        let (curve_id, end) = TpmEccCurve::unmarshal(s, end)?;
        let (kdf, end) = TpmtKdfScheme::unmarshal(s, end)?;
        Ok((
            Self {
                symmetric,
                scheme,
                curve_id,
                kdf,
            },
            end,
        ))
    }
}

impl TpmMarshal for TpmsEccParms {
    ghost lists = { λ _. [] };

    ghost one_list = { λ _. refl };

    ghost steps = { 13 };

    ghost few = { refl };

    fn walk(self, w: Walk, src: &[u8], out: &mut [u8]) -> Walk {
        let v = self.symmetric.walk(w, src, out);
        let u = self.scheme.walk(v, src, out);
        self.kdf.walk(u.code(self.curve_id, out), src, out)
    }
}
