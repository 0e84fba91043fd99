// The unions of kinds 3 to 8. Each has the calls of `TpmTagged` (steps).
ghost use Rattle.std.specs.Prelude.{◌≡◌, []};
ghost use Rattle.wire.specs.Unions.{is_arm, held};
ghost use Rattle.format.specs.Kinds.{tpmu_asym_scheme_arm, tpmu_sig_scheme_arm, tpmu_keyedhash_scheme_arm, tpmu_kdf_scheme_arm, tpmu_asym_scheme, tpmu_sig_scheme, tpmu_keyedhash_scheme, tpmu_kdf_scheme};
ghost use Rattle.schemes.specs.Parts.{tpmu_asym_scheme_parts, tpmu_sig_scheme_parts, tpmu_keyedhash_scheme_parts, tpmu_kdf_scheme_parts};

use crate::tpms::{TpmsSchemeEcdaa, TpmsSchemeHash, TpmsSchemeHmac, TpmsSchemeXor};
use codes::TpmAlgId;
use faults::Refusal;
use format::arms::{HASH, asym_scheme_arm, kdf_scheme_arm, keyedhash_scheme_arm, sig_scheme_arm};
use steps::marshal::TpmMarshal;
use steps::tagged::TpmTagged;
use steps::walk::Walk;
use wire::arms::is_arm;
use wire::read::Read;
use wire::unmarshal::TpmUnmarshal;

#[derive(Clone, Copy)]
pub enum TpmuAsymScheme {
    Hash(TpmsSchemeHash),
    Ecdaa(TpmsSchemeEcdaa),
    Null,
}

#[derive(Clone, Copy)]
pub enum TpmuKeyedhashScheme {
    Hmac(TpmsSchemeHash),
    Xor(TpmsSchemeXor),
    Null,
}

#[derive(Clone, Copy)]
pub enum TpmuSigScheme {
    Hash(TpmsSchemeHash),
    Hmac(TpmsSchemeHmac),
    Ecdaa(TpmsSchemeEcdaa),
    Null,
}

#[derive(Clone, Copy)]
pub enum TpmuKdfScheme {
    Mgf1(TpmsSchemeHash),
    Kdf1Sp800_56a(TpmsSchemeHash),
    Kdf2(TpmsSchemeHash),
    Kdf1Sp800_108(TpmsSchemeHash),
    Null,
}

impl TpmuAsymScheme {
    fn holds(self, chosen: Option<u16>) -> bool
        ensures { result ≡ is_arm chosen (held (tpmu_asym_scheme_parts self)) }
    {
        match self {
            Self::Hash(_) => is_arm(chosen, HASH), // a hash alone, which Ecdaa does not choose
            Self::Ecdaa(_) => is_arm(chosen, TpmAlgId::Ecdaa.0),
            Self::Null => is_arm(chosen, TpmAlgId::Null.0),
        }
    }
}

impl TpmTagged for TpmuAsymScheme {
    type Tag = TpmAlgId;

    ghost arm = { tpmu_asym_scheme_arm };

    ghost layout = { tpmu_asym_scheme };

    ghost parts = { tpmu_asym_scheme_parts };

    ghost lists = { λ _. [] };

    ghost steps = { 3 };

    fn unmarshal_tagged(tag: TpmAlgId, s: &[u8], at: usize) -> Read<Self> {
        match asym_scheme_arm(tag) {
            Some(t) => match TpmAlgId(t) {
                TpmAlgId::Null => Ok((Self::Null, at)),
                TpmAlgId::Ecdaa => {
                    let (x, end) = TpmsSchemeEcdaa::unmarshal(s, at)?;
                    Ok((Self::Ecdaa(x), end))
                }
                _ => {
                    let (x, end) = TpmsSchemeHash::unmarshal(s, at)?;
                    Ok((Self::Hash(x), end))
                }
            },
            None => Err(Refusal::no_arm(at, u64::from(tag.0))),
        }
    }

    fn matches_tag(self, tag: TpmAlgId) -> bool {
        self.holds(asym_scheme_arm(tag))
    }

    fn walk_tagged(self, tag: TpmAlgId, w: Walk, src: &[u8], out: &mut [u8]) -> Walk {
        let chosen = asym_scheme_arm(tag);
        let v = w.due(tag, chosen, self.holds(chosen));
        match self {
            Self::Hash(x) => x.walk(v, src, out),
            Self::Ecdaa(x) => x.walk(v, src, out),
            Self::Null => v,
        }
    }
}

impl TpmTagged for TpmuKeyedhashScheme {
    type Tag = TpmAlgId;

    ghost arm = { tpmu_keyedhash_scheme_arm };

    ghost layout = { tpmu_keyedhash_scheme };

    ghost parts = { tpmu_keyedhash_scheme_parts };

    ghost lists = { λ _. [] };

    ghost steps = { 3 };

    fn unmarshal_tagged(tag: TpmAlgId, s: &[u8], at: usize) -> Read<Self> {
        match tag {
            TpmAlgId::Hmac => {
                let (x, end) = TpmsSchemeHash::unmarshal(s, at)?;
                Ok((Self::Hmac(x), end))
            }
            TpmAlgId::Xor => {
                let (x, end) = TpmsSchemeXor::unmarshal(s, at)?;
                Ok((Self::Xor(x), end))
            }
            TpmAlgId::Null => Ok((Self::Null, at)),
            _ => Err(Refusal::no_arm(at, u64::from(tag.0))),
        }
    }

    fn matches_tag(self, tag: TpmAlgId) -> bool {
        match self {
            Self::Hmac(_) => tag.0 == TpmAlgId::Hmac.0,
            Self::Xor(_) => tag.0 == TpmAlgId::Xor.0,
            Self::Null => tag.0 == TpmAlgId::Null.0,
        }
    }

    fn walk_tagged(self, tag: TpmAlgId, w: Walk, src: &[u8], out: &mut [u8]) -> Walk {
        let v = w.due(tag, keyedhash_scheme_arm(tag), self.matches_tag(tag));
        match self {
            Self::Hmac(x) => x.walk(v, src, out),
            Self::Xor(x) => x.walk(v, src, out),
            Self::Null => v,
        }
    }
}

impl TpmuSigScheme {
    fn holds(self, chosen: Option<u16>) -> bool
        ensures { result ≡ is_arm chosen (held (tpmu_sig_scheme_parts self)) }
    {
        match self {
            Self::Hash(_) => is_arm(chosen, HASH),
            Self::Hmac(_) => is_arm(chosen, TpmAlgId::Hmac.0),
            Self::Ecdaa(_) => is_arm(chosen, TpmAlgId::Ecdaa.0),
            Self::Null => is_arm(chosen, TpmAlgId::Null.0),
        }
    }
}

impl TpmTagged for TpmuSigScheme {
    type Tag = TpmAlgId;

    ghost arm = { tpmu_sig_scheme_arm };

    ghost layout = { tpmu_sig_scheme };

    ghost parts = { tpmu_sig_scheme_parts };

    ghost lists = { λ _. [] };

    ghost steps = { 3 };

    fn unmarshal_tagged(tag: TpmAlgId, s: &[u8], at: usize) -> Read<Self> {
        match sig_scheme_arm(tag) {
            Some(t) => match TpmAlgId(t) {
                TpmAlgId::Null => Ok((Self::Null, at)),
                TpmAlgId::Ecdaa => {
                    let (x, end) = TpmsSchemeEcdaa::unmarshal(s, at)?;
                    Ok((Self::Ecdaa(x), end))
                }
                TpmAlgId::Hmac => {
                    let (hmac, end) = TpmsSchemeHash::unmarshal(s, at)?;
                    Ok((Self::Hmac(hmac), end))
                }
                _ => {
                    let (x, end) = TpmsSchemeHash::unmarshal(s, at)?;
                    Ok((Self::Hash(x), end))
                }
            },
            None => Err(Refusal::no_arm(at, u64::from(tag.0))),
        }
    }

    fn matches_tag(self, tag: TpmAlgId) -> bool {
        self.holds(sig_scheme_arm(tag))
    }

    fn walk_tagged(self, tag: TpmAlgId, w: Walk, src: &[u8], out: &mut [u8]) -> Walk {
        let chosen = sig_scheme_arm(tag);
        let v = w.due(tag, chosen, self.holds(chosen));
        match self {
            Self::Hash(x) => x.walk(v, src, out),
            Self::Hmac(x) => x.walk(v, src, out),
            Self::Ecdaa(x) => x.walk(v, src, out),
            Self::Null => v,
        }
    }
}

impl TpmTagged for TpmuKdfScheme {
    type Tag = TpmAlgId;

    ghost arm = { tpmu_kdf_scheme_arm };

    ghost layout = { tpmu_kdf_scheme };

    ghost parts = { tpmu_kdf_scheme_parts };

    ghost lists = { λ _. [] };

    ghost steps = { 2 };

    fn unmarshal_tagged(tag: TpmAlgId, s: &[u8], at: usize) -> Read<Self> {
        match tag {
            TpmAlgId::Mgf1 => {
                let (x, end) = TpmsSchemeHash::unmarshal(s, at)?;
                Ok((Self::Mgf1(x), end))
            }
            TpmAlgId::Kdf1Sp800_56A => {
                let (x, end) = TpmsSchemeHash::unmarshal(s, at)?;
                Ok((Self::Kdf1Sp800_56a(x), end))
            }
            TpmAlgId::Kdf2 => {
                let (x, end) = TpmsSchemeHash::unmarshal(s, at)?;
                Ok((Self::Kdf2(x), end))
            }
            TpmAlgId::Kdf1Sp800_108 => {
                let (x, end) = TpmsSchemeHash::unmarshal(s, at)?;
                Ok((Self::Kdf1Sp800_108(x), end))
            }
            TpmAlgId::Null => Ok((Self::Null, at)),
            _ => Err(Refusal::no_arm(at, u64::from(tag.0))),
        }
    }

    fn matches_tag(self, tag: TpmAlgId) -> bool {
        match self {
            Self::Mgf1(_) => tag.0 == TpmAlgId::Mgf1.0,
            Self::Kdf1Sp800_56a(_) => tag.0 == TpmAlgId::Kdf1Sp800_56A.0,
            Self::Kdf2(_) => tag.0 == TpmAlgId::Kdf2.0,
            Self::Kdf1Sp800_108(_) => tag.0 == TpmAlgId::Kdf1Sp800_108.0,
            Self::Null => tag.0 == TpmAlgId::Null.0,
        }
    }

    fn walk_tagged(self, tag: TpmAlgId, w: Walk, src: &[u8], out: &mut [u8]) -> Walk {
        let v = w.due(tag, kdf_scheme_arm(tag), self.matches_tag(tag));
        match self {
            Self::Mgf1(x) => x.walk(v, src, out),
            Self::Kdf1Sp800_56a(x) => x.walk(v, src, out),
            Self::Kdf2(x) => x.walk(v, src, out),
            Self::Kdf1Sp800_108(x) => x.walk(v, src, out),
            Self::Null => v,
        }
    }
}
