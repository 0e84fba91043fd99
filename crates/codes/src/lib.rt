// Codes: algorithms, curves and attestation types, of two bytes, capabilities and hierarchies, of four, and handle types, of one; and the tags of tickets. Each
// sort of code is a type, so that none is taken for another; a tag has the type of the attestation types, as in Part 2.
#![tactic(auto)]

pub mod code;
pub mod uint;

ghost use Rattle.std.specs.Prelude.{◌≡◌};
ghost use Rattle.wire.specs.Layout.{one};
ghost use Rattle.wire.specs.Reading.{read};
ghost use Rattle.codes.specs.Codes.{attestations, caps, handle_types, hierarchies, named_algorithms, is_algorithm, is_curve, is_attestation, is_cap, is_handle_type, is_hierarchy, member, within, alg, curve, attestation, cap, handle_type, hierarchy, ticket_tags, ticket_tag};
ghost use Rattle.codes.specs.Digests.{tpmu_ha_arm};
ghost use Rattle.wire.specs.declared.width.Width.TheVariants.{One, Two, Four};
ghost use Rattle.wire.specs.Answers.{answer};
ghost use Rattle.codes.specs.Answers.{tpm_alg_id_parts, tpm_ecc_curve_parts, tpm_st_parts, tpm_cap_parts, tpm_ht_parts, tpm_rh_parts, digest_choice};

use crate::code::{Code, read_code};
use faults::Refusal;
use wire::number::Number;
use wire::read::Read;
use wire::unmarshal::TpmUnmarshal;
use wire::width::Width;

#[derive(Clone, Copy, Debug, PartialEq, Eq)]
pub struct TpmAlgId(pub u16);

#[derive(Clone, Copy, Debug, PartialEq, Eq)]
pub struct TpmEccCurve(pub u16);

#[derive(Clone, Copy, Debug, PartialEq, Eq)]
pub struct TpmSt(pub u16);

#[derive(Clone, Copy, Debug, PartialEq, Eq)]
pub struct TpmCap(pub u32);

#[derive(Clone, Copy, Debug, PartialEq, Eq)]
pub struct TpmHt(pub u8);

#[derive(Clone, Copy, Debug, PartialEq, Eq)]
pub struct TpmRh(pub u32);

// The tickets, by what their tags say.
#[derive(Clone, Copy, Debug, PartialEq, Eq)]
pub enum Ticket {
    Creation,
    Verified,
    Hashcheck,
    Auth,
}

// How long an algorithm's digest is. Null's is empty; an algorithm that is no hash has none.
#[derive(Clone, Copy, Debug, PartialEq, Eq)]
pub enum DigestLen {
    Bytes(u16),
    Empty,
    Nothing,
}

fn within(lo: u16, hi: u16, n: u16) -> bool
    ensures { result ≡ within lo hi n }
{
    if lo <= n { n <= hi } else { false }
}

// The 44 algorithms as a set of bits, which is less code than tests of ranges: bit n of the low word is set if n is listed, bit n of the high one if 0x40 + n is.
const LISTED_LOW: u64 = 0x80007FEF3FFD3DFA;

const LISTED_HIGH: u64 = 0x1F;

impl TpmAlgId {
    pub const Rsa: TpmAlgId = TpmAlgId(0x0001);

    pub const Sha1: TpmAlgId = TpmAlgId(0x0004);

    pub const Hmac: TpmAlgId = TpmAlgId(0x0005);

    pub const Aes: TpmAlgId = TpmAlgId(0x0006);

    pub const Mgf1: TpmAlgId = TpmAlgId(0x0007);

    pub const KeyedHash: TpmAlgId = TpmAlgId(0x0008);

    pub const Xor: TpmAlgId = TpmAlgId(0x000A);

    pub const Sha256: TpmAlgId = TpmAlgId(0x000B);

    pub const Sha384: TpmAlgId = TpmAlgId(0x000C);

    pub const Sha512: TpmAlgId = TpmAlgId(0x000D);

    pub const Null: TpmAlgId = TpmAlgId(0x0010);

    pub const Sm3_256: TpmAlgId = TpmAlgId(0x0012);

    pub const Sm4: TpmAlgId = TpmAlgId(0x0013);

    pub const Rsassa: TpmAlgId = TpmAlgId(0x0014);

    pub const Rsaes: TpmAlgId = TpmAlgId(0x0015);

    pub const Rsapss: TpmAlgId = TpmAlgId(0x0016);

    pub const Oaep: TpmAlgId = TpmAlgId(0x0017);

    pub const Ecdsa: TpmAlgId = TpmAlgId(0x0018);

    pub const Ecdh: TpmAlgId = TpmAlgId(0x0019);

    pub const Ecdaa: TpmAlgId = TpmAlgId(0x001A);

    pub const Sm2: TpmAlgId = TpmAlgId(0x001B);

    pub const Ecschnorr: TpmAlgId = TpmAlgId(0x001C);

    pub const Ecmqv: TpmAlgId = TpmAlgId(0x001D);

    pub const Kdf1Sp800_56A: TpmAlgId = TpmAlgId(0x0020);

    pub const Kdf2: TpmAlgId = TpmAlgId(0x0021);

    pub const Kdf1Sp800_108: TpmAlgId = TpmAlgId(0x0022);

    pub const Ecc: TpmAlgId = TpmAlgId(0x0023);

    pub const SymCipher: TpmAlgId = TpmAlgId(0x0025);

    pub const Camellia: TpmAlgId = TpmAlgId(0x0026);

    pub const Sha3_256: TpmAlgId = TpmAlgId(0x0027);

    pub const Sha3_384: TpmAlgId = TpmAlgId(0x0028);

    pub const Sha3_512: TpmAlgId = TpmAlgId(0x0029);

    pub const Shake256_192: TpmAlgId = TpmAlgId(0x002C);

    pub const Shake256_256: TpmAlgId = TpmAlgId(0x002D);

    pub const Shake256_512: TpmAlgId = TpmAlgId(0x002E);

    // The codes of the algorithms that have a name here, rising.
    pub fn named() -> [u16; 35]
        ensures { result ≡ named_algorithms }
    {
        [
            TpmAlgId::Rsa.0,
            TpmAlgId::Sha1.0,
            TpmAlgId::Hmac.0,
            TpmAlgId::Aes.0,
            TpmAlgId::Mgf1.0,
            TpmAlgId::KeyedHash.0,
            TpmAlgId::Xor.0,
            TpmAlgId::Sha256.0,
            TpmAlgId::Sha384.0,
            TpmAlgId::Sha512.0,
            TpmAlgId::Null.0,
            TpmAlgId::Sm3_256.0,
            TpmAlgId::Sm4.0,
            TpmAlgId::Rsassa.0,
            TpmAlgId::Rsaes.0,
            TpmAlgId::Rsapss.0,
            TpmAlgId::Oaep.0,
            TpmAlgId::Ecdsa.0,
            TpmAlgId::Ecdh.0,
            TpmAlgId::Ecdaa.0,
            TpmAlgId::Sm2.0,
            TpmAlgId::Ecschnorr.0,
            TpmAlgId::Ecmqv.0,
            TpmAlgId::Kdf1Sp800_56A.0,
            TpmAlgId::Kdf2.0,
            TpmAlgId::Kdf1Sp800_108.0,
            TpmAlgId::Ecc.0,
            TpmAlgId::SymCipher.0,
            TpmAlgId::Camellia.0,
            TpmAlgId::Sha3_256.0,
            TpmAlgId::Sha3_384.0,
            TpmAlgId::Sha3_512.0,
            TpmAlgId::Shake256_192.0,
            TpmAlgId::Shake256_256.0,
            TpmAlgId::Shake256_512.0,
        ]
    }

    // The length of the algorithm's digest.
    #[tactic(auto, unfolding(crate::specs::Digests::tpmu_ha_arm))]
    pub fn digest_len(self) -> DigestLen
        ensures { digest_choice result ≡ tpmu_ha_arm self.0 }
    {
        match self {
            TpmAlgId::Sha1 => DigestLen::Bytes(20),
            TpmAlgId::Shake256_192 => DigestLen::Bytes(24),
            TpmAlgId::Sha256 | TpmAlgId::Sm3_256 | TpmAlgId::Sha3_256 | TpmAlgId::Shake256_256 => {
                DigestLen::Bytes(32)
            }
            TpmAlgId::Sha384 | TpmAlgId::Sha3_384 => DigestLen::Bytes(48),
            TpmAlgId::Sha512 | TpmAlgId::Sha3_512 | TpmAlgId::Shake256_512 => DigestLen::Bytes(64),
            TpmAlgId::Null => DigestLen::Empty,
            _ => DigestLen::Nothing,
        }
    }
}

impl TpmSt {
    pub const AttestNv: TpmSt = TpmSt(0x8014);

    pub const AttestCommandAudit: TpmSt = TpmSt(0x8015);

    pub const AttestSessionAudit: TpmSt = TpmSt(0x8016);

    pub const AttestCertify: TpmSt = TpmSt(0x8017);

    pub const AttestQuote: TpmSt = TpmSt(0x8018);

    pub const AttestTime: TpmSt = TpmSt(0x8019);

    pub const AttestCreation: TpmSt = TpmSt(0x801A);

    pub const AttestNvDigest: TpmSt = TpmSt(0x801C);

    pub const Creation: TpmSt = TpmSt(0x8021);

    pub const Verified: TpmSt = TpmSt(0x8022);

    pub const AuthSecret: TpmSt = TpmSt(0x8023);

    pub const Hashcheck: TpmSt = TpmSt(0x8024);

    pub const AuthSigned: TpmSt = TpmSt(0x8025);

    // The codes of the attestation types, rising; a ticket's tag is no code.
    #[tactic(auto, unfolding(crate::specs::Codes::attestations))]
    pub fn named() -> [u16; 8]
        ensures { result ≡ attestations }
    {
        [
            TpmSt::AttestNv.0,
            TpmSt::AttestCommandAudit.0,
            TpmSt::AttestSessionAudit.0,
            TpmSt::AttestCertify.0,
            TpmSt::AttestQuote.0,
            TpmSt::AttestTime.0,
            TpmSt::AttestCreation.0,
            TpmSt::AttestNvDigest.0,
        ]
    }

    // Whether it is a tag of that ticket.
    #[tactic(auto, unfolding(crate::specs::Codes::ticket_tags))]
    pub fn is_tag_of(self, ticket: Ticket) -> bool
        ensures { result ≡ member (ticket_tags ticket) self.0 }
    {
        match ticket {
            Ticket::Creation => matches!(self, TpmSt::Creation),
            Ticket::Verified => matches!(self, TpmSt::Verified),
            Ticket::Hashcheck => matches!(self, TpmSt::Hashcheck),
            Ticket::Auth => matches!(self, TpmSt::AuthSecret | TpmSt::AuthSigned),
        }
    }

    // The tag of a ticket, read: a fixed value, so that another is no unknown code but a bad value.
    pub fn unmarshal_tag(ticket: Ticket, s: &[u8], at: usize) -> Read<Self>
        ensures { answer tpm_st_parts result ≡ read (one 2 (ticket_tag ticket)) s.now at }
    {
        let (t, end) = TpmSt::any(s, at)?;
        if t.is_tag_of(ticket) {
            Ok((t, end))
        } else {
            Err(Refusal::bad_value(at, t.number()))
        }
    }
}

impl TpmCap {
    pub const Algs: TpmCap = TpmCap(0x00000000);

    pub const Handles: TpmCap = TpmCap(0x00000001);

    pub const Commands: TpmCap = TpmCap(0x00000002);

    pub const PpCommands: TpmCap = TpmCap(0x00000003);

    pub const AuditCommands: TpmCap = TpmCap(0x00000004);

    pub const Pcrs: TpmCap = TpmCap(0x00000005);

    pub const TpmProperties: TpmCap = TpmCap(0x00000006);

    pub const PcrProperties: TpmCap = TpmCap(0x00000007);

    pub const EccCurves: TpmCap = TpmCap(0x00000008);

    pub const AuthPolicies: TpmCap = TpmCap(0x00000009);

    pub const Act: TpmCap = TpmCap(0x0000000A);

    // Their codes, rising.
    #[tactic(auto, unfolding(crate::specs::Codes::caps))]
    pub fn named() -> [u32; 11]
        ensures { result ≡ caps }
    {
        [
            TpmCap::Algs.0,
            TpmCap::Handles.0,
            TpmCap::Commands.0,
            TpmCap::PpCommands.0,
            TpmCap::AuditCommands.0,
            TpmCap::Pcrs.0,
            TpmCap::TpmProperties.0,
            TpmCap::PcrProperties.0,
            TpmCap::EccCurves.0,
            TpmCap::AuthPolicies.0,
            TpmCap::Act.0,
        ]
    }
}

impl TpmHt {
    pub const NvIndex: TpmHt = TpmHt(0x01);

    pub const ExternalNv: TpmHt = TpmHt(0x11);

    pub const PermanentNv: TpmHt = TpmHt(0x12);

    // Their codes, rising.
    #[tactic(auto, unfolding(crate::specs::Codes::handle_types))]
    pub fn named() -> [u8; 3]
        ensures { result ≡ handle_types }
    {
        [TpmHt::NvIndex.0, TpmHt::ExternalNv.0, TpmHt::PermanentNv.0]
    }
}

impl TpmRh {
    pub const Owner: TpmRh = TpmRh(0x40000001);

    pub const Null: TpmRh = TpmRh(0x40000007);

    pub const Endorsement: TpmRh = TpmRh(0x4000000B);

    pub const Platform: TpmRh = TpmRh(0x4000000C);

    // Their codes, rising.
    #[tactic(auto, unfolding(crate::specs::Codes::hierarchies))]
    pub fn named() -> [u32; 4]
        ensures { result ≡ hierarchies }
    {
        [
            TpmRh::Owner.0,
            TpmRh::Null.0,
            TpmRh::Endorsement.0,
            TpmRh::Platform.0,
        ]
    }
}

impl Number for TpmAlgId {
    ghost width = { Two };

    ghost number = { λ c. c.0 };

    fn width() -> Width {
        Width::Two
    }

    fn number(self) -> u64 {
        u64::from(self.0)
    }
}

impl Code for TpmAlgId {
    ghost is_listed = { is_algorithm };

    fn any(s: &[u8], at: usize) -> Read<Self> {
        let (n, end) = u16::unmarshal(s, at)?;
        Ok((Self(n), end))
    }

    // Whether the code is one of the 44.
    fn is_listed(self) -> bool {
        let n = self.0;
        match n {
            0x00..=0x3F => (LISTED_LOW >> n) % 2 == 1,
            0x40..=0x7F => (LISTED_HIGH >> (n - 0x40)) % 2 == 1,
            _ => false,
        }
    }
}

impl TpmUnmarshal for TpmAlgId {
    ghost layout = { one 2 alg };

    ghost parts = { tpm_alg_id_parts };

    fn unmarshal(s: &[u8], at: usize) -> Read<Self> {
        read_code(s, at)
    }
}

impl Number for TpmEccCurve {
    ghost width = { Two };

    ghost number = { λ c. c.0 };

    fn width() -> Width {
        Width::Two
    }

    fn number(self) -> u64 {
        u64::from(self.0)
    }
}

impl Code for TpmEccCurve {
    ghost is_listed = { is_curve };

    fn any(s: &[u8], at: usize) -> Read<Self> {
        let (n, end) = u16::unmarshal(s, at)?;
        Ok((Self(n), end))
    }

    // Whether the code is one of the 14.
    fn is_listed(self) -> bool {
        let n = self.0;
        within(0x00, 0x05, n)
            | within(0x10, 0x11, n)
            | within(0x20, 0x20, n)
            | within(0x30, 0x32, n)
            | within(0x40, 0x41, n)
    }
}

impl TpmUnmarshal for TpmEccCurve {
    ghost layout = { one 2 curve };

    ghost parts = { tpm_ecc_curve_parts };

    fn unmarshal(s: &[u8], at: usize) -> Read<Self> {
        read_code(s, at)
    }
}

impl Number for TpmSt {
    ghost width = { Two };

    ghost number = { λ c. c.0 };

    fn width() -> Width {
        Width::Two
    }

    fn number(self) -> u64 {
        u64::from(self.0)
    }
}

impl Code for TpmSt {
    ghost is_listed = { is_attestation };

    fn any(s: &[u8], at: usize) -> Read<Self> {
        let (n, end) = u16::unmarshal(s, at)?;
        Ok((Self(n), end))
    }

    // Whether the code is one of the 8 attestation types.
    fn is_listed(self) -> bool {
        let n = self.0;
        within(0x8014, 0x801A, n) | within(0x801C, 0x801C, n)
    }
}

impl TpmUnmarshal for TpmSt {
    ghost layout = { one 2 attestation };

    ghost parts = { tpm_st_parts };

    fn unmarshal(s: &[u8], at: usize) -> Read<Self> {
        read_code(s, at)
    }
}

impl Number for TpmCap {
    ghost width = { Four };

    ghost number = { λ c. c.0 };

    fn width() -> Width {
        Width::Four
    }

    fn number(self) -> u64 {
        u64::from(self.0)
    }
}

impl Code for TpmCap {
    ghost is_listed = { is_cap };

    fn any(s: &[u8], at: usize) -> Read<Self> {
        let (n, end) = u32::unmarshal(s, at)?;
        Ok((Self(n), end))
    }

    // Whether the code is one of the 11 capabilities.
    fn is_listed(self) -> bool {
        self.0 <= 0x0A
    }
}

impl TpmUnmarshal for TpmCap {
    ghost layout = { one 4 cap };

    ghost parts = { tpm_cap_parts };

    fn unmarshal(s: &[u8], at: usize) -> Read<Self> {
        read_code(s, at)
    }
}

impl Number for TpmHt {
    ghost width = { One };

    ghost number = { λ c. c.0 };

    fn width() -> Width {
        Width::One
    }

    fn number(self) -> u64 {
        u64::from(self.0)
    }
}

impl Code for TpmHt {
    ghost is_listed = { is_handle_type };

    fn any(s: &[u8], at: usize) -> Read<Self> {
        let (n, end) = u8::unmarshal(s, at)?;
        Ok((Self(n), end))
    }

    // Whether the code is one of the 3 handle types of NV areas.
    #[tactic(auto, unfolding(crate::specs::Codes::is_handle_type, crate::specs::Codes::handle_types))]
    fn is_listed(self) -> bool {
        matches!(
            self,
            TpmHt::NvIndex | TpmHt::ExternalNv | TpmHt::PermanentNv
        )
    }
}

impl TpmUnmarshal for TpmHt {
    ghost layout = { one 1 handle_type };

    ghost parts = { tpm_ht_parts };

    fn unmarshal(s: &[u8], at: usize) -> Read<Self> {
        read_code(s, at)
    }
}

impl Number for TpmRh {
    ghost width = { Four };

    ghost number = { λ c. c.0 };

    fn width() -> Width {
        Width::Four
    }

    fn number(self) -> u64 {
        u64::from(self.0)
    }
}

impl Code for TpmRh {
    ghost is_listed = { is_hierarchy };

    fn any(s: &[u8], at: usize) -> Read<Self> {
        let (n, end) = u32::unmarshal(s, at)?;
        Ok((Self(n), end))
    }

    // Whether the code is one of the 4 hierarchies.
    #[tactic(auto, unfolding(crate::specs::Codes::is_hierarchy, crate::specs::Codes::hierarchies))]
    fn is_listed(self) -> bool {
        matches!(
            self,
            TpmRh::Owner | TpmRh::Null | TpmRh::Endorsement | TpmRh::Platform
        )
    }
}

impl TpmUnmarshal for TpmRh {
    ghost layout = { one 4 hierarchy };

    ghost parts = { tpm_rh_parts };

    fn unmarshal(s: &[u8], at: usize) -> Read<Self> {
        read_code::<TpmRh>(s, at)
    }
}
