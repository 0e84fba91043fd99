// The structures that schemes hold.
ghost use Rattle.std.specs.Prelude.{[], refl};
ghost use Rattle.format.specs.Kinds.{tpms_scheme_hash, tpms_scheme_ecdaa, tpms_scheme_xor};
ghost use Rattle.schemes.specs.Parts.{tpms_scheme_hash_parts, tpms_scheme_ecdaa_parts, tpms_scheme_xor_parts};

use codes::TpmAlgId;
use steps::marshal::TpmMarshal;
use steps::walk::Walk;
use wire::read::Read;
use wire::unmarshal::TpmUnmarshal;

#[derive(Clone, Copy)]
pub struct TpmsSchemeHash {
    pub hash_alg: TpmAlgId,
}

pub type TpmsSchemeHmac = TpmsSchemeHash;

#[derive(Clone, Copy)]
pub struct TpmsSchemeEcdaa {
    pub hash_alg: TpmAlgId,
    pub count: u16,
}

#[derive(Clone, Copy)]
pub struct TpmsSchemeXor {
    pub hash_alg: TpmAlgId,
    pub kdf: TpmAlgId,
}

impl TpmUnmarshal for TpmsSchemeHash {
    ghost layout = { tpms_scheme_hash };

    ghost parts = { tpms_scheme_hash_parts };

    // TPMS_SCHEME_HASH, read.
    fn unmarshal(s: &[u8], at: usize) -> Read<Self> {
        let (hash_alg, end) = TpmAlgId::unmarshal(s, at)?;
        Ok((Self { hash_alg }, end))
    }
}

impl TpmMarshal for TpmsSchemeHash {
    ghost lists = { λ _. [] };

    ghost one_list = { λ _. refl };

    ghost steps = { 1 };

    ghost few = { refl };

    fn walk(self, w: Walk, src: &[u8], out: &mut [u8]) -> Walk {
        w.code(self.hash_alg, out)
    }
}

impl TpmUnmarshal for TpmsSchemeEcdaa {
    ghost layout = { tpms_scheme_ecdaa };

    ghost parts = { tpms_scheme_ecdaa_parts };

    // TPMS_SCHEME_ECDAA, read.
    fn unmarshal(s: &[u8], at: usize) -> Read<Self> {
        let (hash_alg, end) = TpmAlgId::unmarshal(s, at)?;
        let (count, end) = u16::unmarshal(s, end)?;
        Ok((Self { hash_alg, count }, end))
    }
}

impl TpmMarshal for TpmsSchemeEcdaa {
    ghost lists = { λ _. [] };

    ghost one_list = { λ _. refl };

    ghost steps = { 2 };

    ghost few = { refl };

    fn walk(self, w: Walk, src: &[u8], out: &mut [u8]) -> Walk {
        w.code(self.hash_alg, out).number(self.count, out)
    }
}

impl TpmUnmarshal for TpmsSchemeXor {
    ghost layout = { tpms_scheme_xor };

    ghost parts = { tpms_scheme_xor_parts };

    // TPMS_SCHEME_XOR, read.
    fn unmarshal(s: &[u8], at: usize) -> Read<Self> {
        let (hash_alg, end) = TpmAlgId::unmarshal(s, at)?;
        let (kdf, end) = TpmAlgId::unmarshal(s, end)?;
        Ok((Self { hash_alg, kdf }, end))
    }
}

impl TpmMarshal for TpmsSchemeXor {
    ghost lists = { λ _. [] };

    ghost one_list = { λ _. refl };

    ghost steps = { 2 };

    ghost few = { refl };

    fn walk(self, w: Walk, src: &[u8], out: &mut [u8]) -> Walk {
        w.code(self.hash_alg, out).code(self.kdf, out)
    }
}
