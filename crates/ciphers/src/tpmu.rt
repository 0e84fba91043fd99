// The unions of kinds 1 and 2, with the calls of `TpmTagged` (steps). Where several selectors choose one arm, a private `holds` says of the
// arm that was looked up whether the payload is that one.
ghost use Rattle.std.specs.Prelude.{◌≡◌, []};
ghost use Rattle.wire.specs.Unions.{is_arm, held};
ghost use Rattle.format.specs.Kinds.{tpmu_ha_arm, tpmu_sym_key_bits_arm, tpmu_sym_mode_arm, tpmu_ha, tpmu_sym_key_bits, tpmu_sym_mode};
ghost use Rattle.ciphers.specs.Parts.{tpmu_ha_parts, tpmu_sym_key_bits_parts, tpmu_sym_mode_parts};

use codes::{DigestLen, TpmAlgId};
use faults::Refusal;
use format::arms::{ha_arm, sym_key_bits_arm, sym_mode_arm};
use steps::tagged::TpmTagged;
use steps::walk::Walk;
use wire::arms::is_arm;
use wire::read::{Read, plain};
use wire::span::Span;
use wire::unmarshal::TpmUnmarshal;

#[derive(Clone, Copy)]
pub enum TpmuHa {
    Null,
    Digest(Span),
}

#[derive(Clone, Copy)]
pub enum TpmuSymKeyBits {
    Aes(u16),
    Sm4(u16),
    Camellia(u16),
    Xor(TpmAlgId),
    Null,
}

#[derive(Clone, Copy)]
pub enum TpmuSymMode {
    Aes(TpmAlgId),
    Sm4(TpmAlgId),
    Camellia(TpmAlgId),
    Null,
}

impl TpmTagged for TpmuHa {
    type Tag = TpmAlgId;

    ghost arm = { tpmu_ha_arm };

    ghost layout = { tpmu_ha };

    ghost parts = { tpmu_ha_parts };

    ghost lists = { λ _. [] };

    ghost steps = { 2 };

    fn unmarshal_tagged(tag: TpmAlgId, s: &[u8], at: usize) -> Read<Self> {
        match tag.digest_len() {
            DigestLen::Bytes(n) => {
                let (x, end) = plain(s, at, n as usize)?;
                Ok((Self::Digest(x), end))
            }
            DigestLen::Empty => Ok((Self::Null, at)),
            DigestLen::Nothing => Err(Refusal::no_arm(at, u64::from(tag.0))),
        }
    }

    // Whether the payload is the digest that the algorithm has, at its length.
    fn matches_tag(self, tag: TpmAlgId) -> bool {
        match tag.digest_len() {
            DigestLen::Bytes(n) => match self {
                Self::Digest(x) => x.len() == n as usize,
                Self::Null => false,
            },
            DigestLen::Empty => match self {
                Self::Digest(_) => false,
                Self::Null => true,
            },
            DigestLen::Nothing => false,
        }
    }

    fn walk_tagged(self, tag: TpmAlgId, w: Walk, src: &[u8], out: &mut [u8]) -> Walk {
        let chosen = ha_arm(tag);
        let v = w.due(tag, chosen, self.matches_tag(tag));
        match self {
            Self::Null => v,
            Self::Digest(x) => v.plain(chosen, x, src, out),
        }
    }
}

impl TpmTagged for TpmuSymKeyBits {
    type Tag = TpmAlgId;

    ghost arm = { tpmu_sym_key_bits_arm };

    ghost layout = { tpmu_sym_key_bits };

    ghost parts = { tpmu_sym_key_bits_parts };

    ghost lists = { λ _. [] };

    ghost steps = { 2 };

    fn unmarshal_tagged(tag: TpmAlgId, s: &[u8], at: usize) -> Read<Self> {
        match tag {
            TpmAlgId::Aes => {
                let (bits, end) = u16::unmarshal(s, at)?;
                Ok((Self::Aes(bits), end))
            }
            TpmAlgId::Sm4 => {
                let (bits, end) = u16::unmarshal(s, at)?; // key bits, of which Null has none
                Ok((Self::Sm4(bits), end))
            }
            TpmAlgId::Camellia => {
                let (bits, end) = u16::unmarshal(s, at)?;
                Ok((Self::Camellia(bits), end))
            }
            TpmAlgId::Xor => {
                let (x, end) = TpmAlgId::unmarshal(s, at)?;
                Ok((Self::Xor(x), end))
            }
            TpmAlgId::Null => Ok((Self::Null, at)),
            _ => Err(Refusal::no_arm(at, u64::from(tag.0))),
        }
    }

    fn matches_tag(self, tag: TpmAlgId) -> bool {
        match self {
            Self::Aes(_) => tag.0 == TpmAlgId::Aes.0,
            Self::Sm4(_) => tag.0 == TpmAlgId::Sm4.0,
            Self::Camellia(_) => tag.0 == TpmAlgId::Camellia.0,
            Self::Xor(_) => tag.0 == TpmAlgId::Xor.0,
            Self::Null => tag.0 == TpmAlgId::Null.0,
        }
    }

    fn walk_tagged(self, tag: TpmAlgId, w: Walk, src: &[u8], out: &mut [u8]) -> Walk {
        let v = w.due(tag, sym_key_bits_arm(tag), self.matches_tag(tag));
        match self {
            Self::Aes(x) => v.number(x, out),
            Self::Sm4(x) => v.number(x, out),
            Self::Camellia(x) => v.number(x, out),
            Self::Xor(x) => v.code(x, out),
            Self::Null => v,
        }
    }
}

impl TpmuSymMode {
    fn holds(self, chosen: Option<u16>) -> bool
        ensures { result ≡ is_arm chosen (held (tpmu_sym_mode_parts self)) }
    {
        match self {
            Self::Aes(_) => is_arm(chosen, TpmAlgId::Aes.0),
            Self::Sm4(_) => is_arm(chosen, TpmAlgId::Sm4.0),
            Self::Camellia(_) => is_arm(chosen, TpmAlgId::Camellia.0),
            Self::Null => is_arm(chosen, TpmAlgId::Null.0),
        }
    }
}

impl TpmTagged for TpmuSymMode {
    type Tag = TpmAlgId;

    ghost arm = { tpmu_sym_mode_arm };

    ghost layout = { tpmu_sym_mode };

    ghost parts = { tpmu_sym_mode_parts };

    ghost lists = { λ _. [] };

    ghost steps = { 2 };

    fn unmarshal_tagged(tag: TpmAlgId, s: &[u8], at: usize) -> Read<Self> {
        match tag {
            TpmAlgId::Aes => {
                let (mode, end) = TpmAlgId::unmarshal(s, at)?;
                Ok((Self::Aes(mode), end))
            }
            TpmAlgId::Sm4 => {
                let (mode, end) = TpmAlgId::unmarshal(s, at)?; // a mode, of which Xor has none
                Ok((Self::Sm4(mode), end))
            }
            TpmAlgId::Camellia => {
                let (mode, end) = TpmAlgId::unmarshal(s, at)?;
                Ok((Self::Camellia(mode), end))
            }
            TpmAlgId::Null | TpmAlgId::Xor => Ok((Self::Null, at)),
            _ => Err(Refusal::no_arm(at, u64::from(tag.0))),
        }
    }

    fn matches_tag(self, tag: TpmAlgId) -> bool {
        self.holds(sym_mode_arm(tag))
    }

    fn walk_tagged(self, tag: TpmAlgId, w: Walk, src: &[u8], out: &mut [u8]) -> Walk {
        let chosen = sym_mode_arm(tag);
        let v = w.due(tag, chosen, self.holds(chosen));
        match self {
            Self::Aes(x) => v.code(x, out),
            Self::Sm4(x) => v.code(x, out),
            Self::Camellia(x) => v.code(x, out),
            Self::Null => v,
        }
    }
}
