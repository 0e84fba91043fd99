// Kind 13, the attestation: TPMS_ATTEST over TPMU_ATTEST. It has the calls that a kind has (ciphers, tpmt.rt).
ghost use Rattle.std.specs.Prelude.{refl};
ghost use Rattle.format.specs.Kinds.{tpms_attest};
ghost use Rattle.format.specs.declared.list.ListOf.TheVariants.{PcrSelection};
ghost use Rattle.attest.specs.Parts.{tpms_attest_parts, tpmu_attest_lists, one_list_at_most};

use crate::tpms::TpmsClockInfo;
use crate::tpmu::TpmuAttest;
use codes::TpmSt;
use codes::uint::magic_number;
use format::limits;
use format::list::ListOf;
use lists::listed::Listed;
use steps::marshal::TpmMarshal;
use steps::tagged::TpmTagged;
use steps::walk::Walk;
use wire::read::{Read, buffer, number};
use wire::span::Span;
use wire::unmarshal::TpmUnmarshal;
use wire::width::Width;

#[derive(Clone, Copy)]
pub struct TpmsAttest {
    pub magic: u32,
    pub attest_type: TpmSt,
    pub qualified_signer: Span,
    pub extra_data: Span,
    pub clock_info: TpmsClockInfo,
    pub firmware_version: u64,
    pub attested: TpmuAttest,
}

impl TpmUnmarshal for TpmsAttest {
    ghost layout = { tpms_attest };

    ghost parts = { tpms_attest_parts };

    // Kind 13, TPMS_ATTEST, read.
    fn unmarshal(s: &[u8], at: usize) -> Read<Self> {
        let (magic, end) = magic_number(s, at)?;
        let (attest_type, end) = TpmSt::unmarshal(s, end)?;
        let (qualified_signer, end) = buffer(s, end, Width::Two, limits::MAX_NAME_SIZE)?;
        let (extra_data, end) = buffer(s, end, Width::Two, limits::MAX_DATA_SIZE)?;
        let (clock_info, end) = TpmsClockInfo::unmarshal(s, end)?;
        let (firmware_version, end) = u64::unmarshal(s, end)?;
        let (attested, end) = TpmuAttest::unmarshal_tagged(attest_type, s, end)?;
        let attestation = Self {
            magic,
            attest_type,
            qualified_signer,
            extra_data,
            clock_info,
            firmware_version,
            attested,
        };
        Ok((attestation, end))
    }
}

impl TpmMarshal for TpmsAttest {
    ghost lists = { λ s. tpmu_attest_lists s.attested };

    ghost one_list = { λ s. one_list_at_most s.attested };

    ghost steps = { 16 };

    ghost few = { refl };

    fn walk(self, w: Walk, src: &[u8], out: &mut [u8]) -> Walk {
        let v = w
            .magic(self.magic, out)
            .code(self.attest_type, out)
            .buffer(limits::MAX_NAME_SIZE, self.qualified_signer, src, out)
            .buffer(limits::MAX_DATA_SIZE, self.extra_data, src, out);
        let u = self.clock_info.walk(v, src, out);
        self.attested.walk_tagged(
            self.attest_type,
            u.number(self.firmware_version, out),
            src,
            out,
        )
    }
}

impl Listed for TpmsAttest {
    ghost which = { λ _. PcrSelection };

    fn which(self) -> ListOf {
        ListOf::PcrSelection
    }
}
