// Kinds 1 and 2: a selector, and the unions that it chooses from.
//
// A kind has the calls of its traits: it is read by those of `TpmUnmarshal` (wire), walked over, measured, written and asked for its byte
// fields by those of `TpmMarshal` (steps), and asked for the items of its list by those of `Listed` (lists), or of `Listless` (steps)
// where it has none.
ghost use Rattle.std.specs.Prelude.{[], refl};
ghost use Rattle.format.specs.Kinds.{tpmt_ha, tpmt_sym_def};
ghost use Rattle.ciphers.specs.Parts.{tpmt_ha_parts, tpmt_sym_def_parts};

use crate::tpmu::{TpmuHa, TpmuSymKeyBits, TpmuSymMode};
use codes::TpmAlgId;
use steps::marshal::{Listless, TpmMarshal};
use steps::tagged::TpmTagged;
use steps::walk::Walk;
use wire::read::Read;
use wire::unmarshal::TpmUnmarshal;

#[derive(Clone, Copy)]
pub struct TpmtHa {
    pub hash_alg: TpmAlgId,
    pub digest: TpmuHa,
}

#[derive(Clone, Copy)]
pub struct TpmtSymDef {
    pub algorithm: TpmAlgId,
    pub key_bits: TpmuSymKeyBits,
    pub mode: TpmuSymMode,
}

pub type TpmtSymDefObject = TpmtSymDef;

impl TpmUnmarshal for TpmtHa {
    ghost layout = { tpmt_ha };

    ghost parts = { tpmt_ha_parts };

    // Kind 1, TPMT_HA, read.
    fn unmarshal(s: &[u8], at: usize) -> Read<Self> {
        let (hash_alg, end) = TpmAlgId::unmarshal(s, at)?;
        let (digest, end) = TpmuHa::unmarshal_tagged(hash_alg, s, end)?;
        Ok((Self { hash_alg, digest }, end))
    }
}

impl TpmMarshal for TpmtHa {
    ghost lists = { λ _. [] };

    ghost one_list = { λ _. refl };

    ghost steps = { 3 };

    ghost few = { refl };

    fn walk(self, w: Walk, src: &[u8], out: &mut [u8]) -> Walk {
        self.digest
            .walk_tagged(self.hash_alg, w.code(self.hash_alg, out), src, out)
    }
}

impl Listless for TpmtHa {}

impl TpmUnmarshal for TpmtSymDef {
    ghost layout = { tpmt_sym_def };

    ghost parts = { tpmt_sym_def_parts };

    // Kind 2, TPMT_SYM_DEF, read. Behind a Null cipher there are neither key bits nor a mode, and behind Xor there is no mode.
    fn unmarshal(s: &[u8], at: usize) -> Read<Self> {
        let (algorithm, end) = TpmAlgId::unmarshal(s, at)?;
        let (key_bits, end) = TpmuSymKeyBits::unmarshal_tagged(algorithm, s, end)?;
        let (mode, end) = TpmuSymMode::unmarshal_tagged(algorithm, s, end)?;
        Ok((
            Self {
                algorithm,
                key_bits,
                mode,
            },
            end,
        ))
    }
}

impl TpmMarshal for TpmtSymDef {
    ghost lists = { λ _. [] };

    ghost one_list = { λ _. refl };

    ghost steps = { 5 };

    ghost few = { refl };

    fn walk(self, w: Walk, src: &[u8], out: &mut [u8]) -> Walk {
        let v = self
            .key_bits
            .walk_tagged(self.algorithm, w.code(self.algorithm, out), src, out);
        self.mode.walk_tagged(self.algorithm, v, src, out)
    }
}

impl Listless for TpmtSymDef {}
