// The arms that a selector chooses, a function for each union. Parameters and unique have one choice.
// The numbers of the arms are those of the tables.
ghost use Rattle.std.specs.Prelude.{◌≡◌};
ghost use Rattle.format.specs.Kinds.{tpmu_ha_arm, tpmu_asym_scheme_arm, tpmu_sig_scheme_arm, tpmu_keyedhash_scheme_arm, tpmu_kdf_scheme_arm, tpmu_sym_key_bits_arm, tpmu_sym_mode_arm, tpmu_public_parms_arm, tpmu_public_id_arm, tpmu_sensitive_composite_arm, tpmu_signature_arm, tpmu_attest_arm, tpmu_capabilities_arm, tpmu_nv_public2_arm};

use codes::{DigestLen, TpmAlgId, TpmCap, TpmHt, TpmSt};

// The arm of a hash code that several schemes choose.
pub const HASH: u16 = 1;

// The arm of a digest of no bytes; each byte of a digest is one more.
pub const DIGEST: u16 = 256;

pub fn ha_arm(tag: TpmAlgId) -> Option<u16>
    ensures { result ≡ tpmu_ha_arm tag.0 }
{
    match tag.digest_len() {
        DigestLen::Bytes(n) => Some(n + DIGEST),
        DigestLen::Empty => Some(TpmAlgId::Null.0),
        DigestLen::Nothing => None,
    }
}

#[tactic(auto, unfolding(crate::specs::Kinds::tpmu_asym_scheme_arm))]
pub fn asym_scheme_arm(tag: TpmAlgId) -> Option<u16>
    ensures { result ≡ tpmu_asym_scheme_arm tag.0 }
{
    match tag {
        TpmAlgId::Rsaes | TpmAlgId::Null => Some(TpmAlgId::Null.0),
        TpmAlgId::Ecdaa => Some(TpmAlgId::Ecdaa.0),
        TpmAlgId::Rsassa
        | TpmAlgId::Rsapss
        | TpmAlgId::Ecdsa
        | TpmAlgId::Sm2
        | TpmAlgId::Ecschnorr
        | TpmAlgId::Oaep
        | TpmAlgId::Ecdh
        | TpmAlgId::Ecmqv => Some(HASH),
        _ => None,
    }
}

#[tactic(auto, unfolding(crate::specs::Kinds::tpmu_sig_scheme_arm))]
pub fn sig_scheme_arm(tag: TpmAlgId) -> Option<u16>
    ensures { result ≡ tpmu_sig_scheme_arm tag.0 }
{
    match tag {
        TpmAlgId::Hmac | TpmAlgId::Ecdaa | TpmAlgId::Null => Some(tag.0),
        TpmAlgId::Rsassa
        | TpmAlgId::Rsapss
        | TpmAlgId::Ecdsa
        | TpmAlgId::Sm2
        | TpmAlgId::Ecschnorr => Some(HASH),
        _ => None,
    }
}

#[tactic(auto, unfolding(crate::specs::Kinds::tpmu_keyedhash_scheme_arm))]
pub fn keyedhash_scheme_arm(tag: TpmAlgId) -> Option<u16>
    ensures { result ≡ tpmu_keyedhash_scheme_arm tag.0 }
{
    match tag {
        TpmAlgId::Hmac | TpmAlgId::Xor | TpmAlgId::Null => Some(tag.0),
        _ => None,
    }
}

#[tactic(auto, unfolding(crate::specs::Kinds::tpmu_kdf_scheme_arm))]
pub fn kdf_scheme_arm(tag: TpmAlgId) -> Option<u16>
    ensures { result ≡ tpmu_kdf_scheme_arm tag.0 }
{
    match tag {
        TpmAlgId::Mgf1
        | TpmAlgId::Kdf1Sp800_56A
        | TpmAlgId::Kdf2
        | TpmAlgId::Kdf1Sp800_108
        | TpmAlgId::Null => Some(tag.0),
        _ => None,
    }
}

#[tactic(auto, unfolding(crate::specs::Kinds::tpmu_sym_key_bits_arm))]
pub fn sym_key_bits_arm(tag: TpmAlgId) -> Option<u16>
    ensures { result ≡ tpmu_sym_key_bits_arm tag.0 }
{
    match tag {
        TpmAlgId::Aes | TpmAlgId::Sm4 | TpmAlgId::Camellia | TpmAlgId::Xor | TpmAlgId::Null => {
            Some(tag.0)
        }
        _ => None,
    }
}

#[tactic(auto, unfolding(crate::specs::Kinds::tpmu_sym_mode_arm))]
pub fn sym_mode_arm(tag: TpmAlgId) -> Option<u16>
    ensures { result ≡ tpmu_sym_mode_arm tag.0 }
{
    match tag {
        TpmAlgId::Aes | TpmAlgId::Sm4 | TpmAlgId::Camellia => Some(tag.0),
        TpmAlgId::Xor | TpmAlgId::Null => Some(TpmAlgId::Null.0),
        _ => None,
    }
}

#[tactic(auto, unfolding(crate::specs::Kinds::tpmu_public_parms_arm))]
pub fn public_parms_arm(tag: TpmAlgId) -> Option<u16>
    ensures { result ≡ tpmu_public_parms_arm tag.0 }
{
    match tag {
        TpmAlgId::KeyedHash
        | TpmAlgId::SymCipher
        | TpmAlgId::Rsa
        | TpmAlgId::Ecc
        | TpmAlgId::Null => Some(tag.0),
        _ => None,
    }
}

pub fn public_id_arm(tag: TpmAlgId) -> Option<u16>
    ensures { result ≡ tpmu_public_id_arm tag.0 }
{
    public_parms_arm(tag)
}

#[tactic(auto, unfolding(crate::specs::Kinds::tpmu_sensitive_composite_arm))]
pub fn sensitive_composite_arm(tag: TpmAlgId) -> Option<u16>
    ensures { result ≡ tpmu_sensitive_composite_arm tag.0 }
{
    match tag {
        TpmAlgId::Rsa | TpmAlgId::Ecc | TpmAlgId::KeyedHash | TpmAlgId::SymCipher => { Some(tag.0) }
        _ => None,
    }
}

#[tactic(auto, unfolding(crate::specs::Kinds::tpmu_signature_arm))]
pub fn signature_arm(tag: TpmAlgId) -> Option<u16>
    ensures { result ≡ tpmu_signature_arm tag.0 }
{
    match tag {
        TpmAlgId::Rsassa
        | TpmAlgId::Rsapss
        | TpmAlgId::Ecdsa
        | TpmAlgId::Ecdaa
        | TpmAlgId::Sm2
        | TpmAlgId::Ecschnorr
        | TpmAlgId::Hmac
        | TpmAlgId::Null => Some(tag.0),
        _ => None,
    }
}

#[tactic(auto, unfolding(crate::specs::Kinds::tpmu_attest_arm))]
pub fn attest_arm(tag: TpmSt) -> Option<u16>
    ensures { result ≡ tpmu_attest_arm tag.0 }
{
    match tag {
        TpmSt::AttestNv
        | TpmSt::AttestCommandAudit
        | TpmSt::AttestSessionAudit
        | TpmSt::AttestCertify
        | TpmSt::AttestQuote
        | TpmSt::AttestTime
        | TpmSt::AttestCreation
        | TpmSt::AttestNvDigest => Some(tag.0),
        _ => None,
    }
}

#[tactic(auto, unfolding(crate::specs::Kinds::tpmu_capabilities_arm))]
pub fn capabilities_arm(tag: TpmCap) -> Option<u16>
    ensures { result ≡ tpmu_capabilities_arm tag.0 }
{
    match tag {
        TpmCap::Algs
        | TpmCap::Handles
        | TpmCap::Commands
        | TpmCap::PpCommands
        | TpmCap::AuditCommands
        | TpmCap::Pcrs
        | TpmCap::TpmProperties
        | TpmCap::EccCurves
        | TpmCap::AuthPolicies
        | TpmCap::Act => Some(tag.0 as u16),
        _ => None,
    }
}

#[tactic(auto, unfolding(crate::specs::Kinds::tpmu_nv_public2_arm))]
pub fn nv_public2_arm(tag: TpmHt) -> Option<u16>
    ensures { result ≡ tpmu_nv_public2_arm tag.0 }
{
    match tag {
        TpmHt::NvIndex | TpmHt::ExternalNv | TpmHt::PermanentNv => Some(u16::from(tag.0)),
        _ => None,
    }
}
