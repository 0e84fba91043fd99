// The structures that an attestation holds.
ghost use Rattle.std.specs.Prelude.{[], refl};
ghost use Rattle.format.specs.Kinds.{tpms_clock_info, tpms_time_info, tpms_certify_info, tpms_creation_info, tpms_quote_info, tpms_command_audit_info, tpms_session_audit_info, tpms_time_attest_info, tpms_nv_certify_info, tpms_nv_digest_certify_info};
ghost use Rattle.attest.specs.Parts.{tpms_clock_info_parts, tpms_time_info_parts, tpms_certify_info_parts, tpms_creation_info_parts, tpms_quote_info_parts, tpms_command_audit_info_parts, tpms_session_audit_info_parts, tpms_time_attest_info_parts, tpms_nv_certify_info_parts, tpms_nv_digest_certify_info_parts, tpml_pcr_selection_parts};

use crate::list::TpmlPcrSelection;
use codes::TpmAlgId;
use codes::uint::yes_no;
use format::limits;
use steps::marshal::TpmMarshal;
use steps::walk::Walk;
use wire::read::{Read, buffer, number};
use wire::span::Span;
use wire::unmarshal::TpmUnmarshal;
use wire::width::Width;

#[derive(Clone, Copy)]
pub struct TpmsClockInfo {
    pub clock: u64,
    pub reset_count: u32,
    pub restart_count: u32,
    pub safe: u8,
}

#[derive(Clone, Copy)]
pub struct TpmsTimeInfo {
    pub time: u64,
    pub clock_info: TpmsClockInfo,
}

#[derive(Clone, Copy)]
pub struct TpmsCertifyInfo {
    pub name: Span,
    pub qualified_name: Span,
}

#[derive(Clone, Copy)]
pub struct TpmsCreationInfo {
    pub object_name: Span,
    pub creation_hash: Span,
}

#[derive(Clone, Copy)]
pub struct TpmsQuoteInfo {
    pub pcr_select: TpmlPcrSelection,
    pub pcr_digest: Span,
}

#[derive(Clone, Copy)]
pub struct TpmsCommandAuditInfo {
    pub audit_counter: u64,
    pub digest_alg: TpmAlgId,
    pub audit_digest: Span,
    pub command_digest: Span,
}

#[derive(Clone, Copy)]
pub struct TpmsSessionAuditInfo {
    pub exclusive_session: u8,
    pub session_digest: Span,
}

#[derive(Clone, Copy)]
pub struct TpmsTimeAttestInfo {
    pub time: TpmsTimeInfo,
    pub firmware_version: u64,
}

#[derive(Clone, Copy)]
pub struct TpmsNvCertifyInfo {
    pub index_name: Span,
    pub offset: u16,
    pub nv_contents: Span,
}

#[derive(Clone, Copy)]
pub struct TpmsNvDigestCertifyInfo {
    pub index_name: Span,
    pub nv_digest: Span,
}

impl TpmUnmarshal for TpmsClockInfo {
    ghost layout = { tpms_clock_info };

    ghost parts = { tpms_clock_info_parts };

    // TPMS_CLOCK_INFO, read.
    fn unmarshal(s: &[u8], at: usize) -> Read<Self> {
        let (clock, end) = u64::unmarshal(s, at)?;
        let (reset_count, end) = u32::unmarshal(s, end)?;
        let (restart_count, end) = u32::unmarshal(s, end)?;
        let (safe, end) = yes_no(s, end)?;
        Ok((
            Self {
                clock,
                reset_count,
                restart_count,
                safe,
            },
            end,
        ))
    }
}

impl TpmMarshal for TpmsClockInfo {
    ghost lists = { λ _. [] };

    ghost one_list = { λ _. refl };

    ghost steps = { 4 };

    ghost few = { refl };

    fn walk(self, w: Walk, src: &[u8], out: &mut [u8]) -> Walk {
        w.number(self.clock, out)
            .number(self.reset_count, out)
            .number(self.restart_count, out)
            .yes_no(self.safe, out)
    }
}

impl TpmUnmarshal for TpmsTimeInfo {
    ghost layout = { tpms_time_info };

    ghost parts = { tpms_time_info_parts };

    // TPMS_TIME_INFO, read.
    fn unmarshal(s: &[u8], at: usize) -> Read<Self> {
        let (time, end) = u64::unmarshal(s, at)?;
        let (clock_info, end) = TpmsClockInfo::unmarshal(s, end)?;
        Ok((Self { time, clock_info }, end))
    }
}

impl TpmMarshal for TpmsTimeInfo {
    ghost lists = { λ _. [] };

    ghost one_list = { λ _. refl };

    ghost steps = { 5 };

    ghost few = { refl };

    fn walk(self, w: Walk, src: &[u8], out: &mut [u8]) -> Walk {
        self.clock_info.walk(w.number(self.time, out), src, out)
    }
}

impl TpmUnmarshal for TpmsCertifyInfo {
    ghost layout = { tpms_certify_info };

    ghost parts = { tpms_certify_info_parts };

    // TPMS_CERTIFY_INFO, read.
    fn unmarshal(s: &[u8], at: usize) -> Read<Self> {
        let (name, end) = buffer(s, at, Width::Two, limits::MAX_NAME_SIZE)?;
        let (qualified_name, end) = buffer(s, end, Width::Two, limits::MAX_NAME_SIZE)?;
        Ok((
            Self {
                name,
                qualified_name,
            },
            end,
        ))
    }
}

impl TpmMarshal for TpmsCertifyInfo {
    ghost lists = { λ _. [] };

    ghost one_list = { λ _. refl };

    ghost steps = { 2 };

    ghost few = { refl };

    fn walk(self, w: Walk, src: &[u8], out: &mut [u8]) -> Walk {
        w.buffer(limits::MAX_NAME_SIZE, self.name, src, out)
            .buffer(limits::MAX_NAME_SIZE, self.qualified_name, src, out)
    }
}

impl TpmUnmarshal for TpmsCreationInfo {
    ghost layout = { tpms_creation_info };

    ghost parts = { tpms_creation_info_parts };

    // TPMS_CREATION_INFO, read.
    fn unmarshal(s: &[u8], at: usize) -> Read<Self> {
        let (object_name, end) = buffer(s, at, Width::Two, limits::MAX_NAME_SIZE)?;
        let (creation_hash, end) = buffer(s, end, Width::Two, limits::MAX_DIGEST_SIZE)?;
        Ok((
            Self {
                object_name,
                creation_hash,
            },
            end,
        ))
    }
}

impl TpmMarshal for TpmsCreationInfo {
    ghost lists = { λ _. [] };

    ghost one_list = { λ _. refl };

    ghost steps = { 2 };

    ghost few = { refl };

    fn walk(self, w: Walk, src: &[u8], out: &mut [u8]) -> Walk {
        w.buffer(limits::MAX_NAME_SIZE, self.object_name, src, out)
            .buffer(limits::MAX_DIGEST_SIZE, self.creation_hash, src, out)
    }
}

impl TpmUnmarshal for TpmsQuoteInfo {
    ghost layout = { tpms_quote_info };

    ghost parts = { tpms_quote_info_parts };

    // TPMS_QUOTE_INFO, read.
    fn unmarshal(s: &[u8], at: usize) -> Read<Self> {
        let (pcr_select, end) = TpmlPcrSelection::unmarshal(s, at)?;
        let (pcr_digest, end) = buffer(s, end, Width::Two, limits::MAX_DIGEST_SIZE)?;
        Ok((
            Self {
                pcr_select,
                pcr_digest,
            },
            end,
        ))
    }
}

impl TpmMarshal for TpmsQuoteInfo {
    ghost lists = { λ s. tpml_pcr_selection_parts s.pcr_select };

    ghost one_list = { λ _. refl };

    ghost steps = { 2 };

    ghost few = { refl };

    fn walk(self, w: Walk, src: &[u8], out: &mut [u8]) -> Walk {
        let v = self.pcr_select.walk(w, src, out);
        v.buffer(limits::MAX_DIGEST_SIZE, self.pcr_digest, src, out)
    }
}

impl TpmUnmarshal for TpmsCommandAuditInfo {
    ghost layout = { tpms_command_audit_info };

    ghost parts = { tpms_command_audit_info_parts };

    // TPMS_COMMAND_AUDIT_INFO, read.
    fn unmarshal(s: &[u8], at: usize) -> Read<Self> {
        let (audit_counter, end) = u64::unmarshal(s, at)?;
        let (digest_alg, end) = TpmAlgId::unmarshal(s, end)?;
        let (audit_digest, end) = buffer(s, end, Width::Two, limits::MAX_DIGEST_SIZE)?;
        let (command_digest, end) = buffer(s, end, Width::Two, limits::MAX_DIGEST_SIZE)?;
        Ok((
            Self {
                audit_counter,
                digest_alg,
                audit_digest,
                command_digest,
            },
            end,
        ))
    }
}

impl TpmMarshal for TpmsCommandAuditInfo {
    ghost lists = { λ _. [] };

    ghost one_list = { λ _. refl };

    ghost steps = { 4 };

    ghost few = { refl };

    fn walk(self, w: Walk, src: &[u8], out: &mut [u8]) -> Walk {
        w.number(self.audit_counter, out)
            .code(self.digest_alg, out)
            .buffer(limits::MAX_DIGEST_SIZE, self.audit_digest, src, out)
            .buffer(limits::MAX_DIGEST_SIZE, self.command_digest, src, out)
    }
}

impl TpmUnmarshal for TpmsSessionAuditInfo {
    ghost layout = { tpms_session_audit_info };

    ghost parts = { tpms_session_audit_info_parts };

    // TPMS_SESSION_AUDIT_INFO, read.
    fn unmarshal(s: &[u8], at: usize) -> Read<Self> {
        let (exclusive_session, end) = yes_no(s, at)?;
        let (session_digest, end) = buffer(s, end, Width::Two, limits::MAX_DIGEST_SIZE)?;
        Ok((
            Self {
                exclusive_session,
                session_digest,
            },
            end,
        ))
    }
}

impl TpmMarshal for TpmsSessionAuditInfo {
    ghost lists = { λ _. [] };

    ghost one_list = { λ _. refl };

    ghost steps = { 2 };

    ghost few = { refl };

    fn walk(self, w: Walk, src: &[u8], out: &mut [u8]) -> Walk {
        w.yes_no(self.exclusive_session, out)
            .buffer(limits::MAX_DIGEST_SIZE, self.session_digest, src, out)
    }
}

impl TpmUnmarshal for TpmsTimeAttestInfo {
    ghost layout = { tpms_time_attest_info };

    ghost parts = { tpms_time_attest_info_parts };

    // TPMS_TIME_ATTEST_INFO, read.
    fn unmarshal(s: &[u8], at: usize) -> Read<Self> {
        let (time, end) = TpmsTimeInfo::unmarshal(s, at)?;
        let (firmware_version, end) = u64::unmarshal(s, end)?;
        Ok((
            Self {
                time,
                firmware_version,
            },
            end,
        ))
    }
}

impl TpmMarshal for TpmsTimeAttestInfo {
    ghost lists = { λ _. [] };

    ghost one_list = { λ _. refl };

    ghost steps = { 6 };

    ghost few = { refl };

    fn walk(self, w: Walk, src: &[u8], out: &mut [u8]) -> Walk {
        let v = self.time.walk(w, src, out);
        v.number(self.firmware_version, out)
    }
}

impl TpmUnmarshal for TpmsNvCertifyInfo {
    ghost layout = { tpms_nv_certify_info };

    ghost parts = { tpms_nv_certify_info_parts };

    // TPMS_NV_CERTIFY_INFO, read.
    fn unmarshal(s: &[u8], at: usize) -> Read<Self> {
        let (index_name, end) = buffer(s, at, Width::Two, limits::MAX_NAME_SIZE)?;
        let (offset, end) = u16::unmarshal(s, end)?;
        let (nv_contents, end) = buffer(s, end, Width::Two, limits::MAX_NV_BUFFER_SIZE)?;
        Ok((
            Self {
                index_name,
                offset,
                nv_contents,
            },
            end,
        ))
    }
}

impl TpmMarshal for TpmsNvCertifyInfo {
    ghost lists = { λ _. [] };

    ghost one_list = { λ _. refl };

    ghost steps = { 3 };

    ghost few = { refl };

    fn walk(self, w: Walk, src: &[u8], out: &mut [u8]) -> Walk {
        w.buffer(limits::MAX_NAME_SIZE, self.index_name, src, out)
            .number(self.offset, out)
            .buffer(limits::MAX_NV_BUFFER_SIZE, self.nv_contents, src, out)
    }
}

impl TpmUnmarshal for TpmsNvDigestCertifyInfo {
    ghost layout = { tpms_nv_digest_certify_info };

    ghost parts = { tpms_nv_digest_certify_info_parts };

    // TPMS_NV_DIGEST_CERTIFY_INFO, read.
    fn unmarshal(s: &[u8], at: usize) -> Read<Self> {
        let (index_name, end) = buffer(s, at, Width::Two, limits::MAX_NAME_SIZE)?;
        let (nv_digest, end) = buffer(s, end, Width::Two, limits::MAX_DIGEST_SIZE)?;
        Ok((
            Self {
                index_name,
                nv_digest,
            },
            end,
        ))
    }
}

impl TpmMarshal for TpmsNvDigestCertifyInfo {
    ghost lists = { λ _. [] };

    ghost one_list = { λ _. refl };

    ghost steps = { 2 };

    ghost few = { refl };

    fn walk(self, w: Walk, src: &[u8], out: &mut [u8]) -> Walk {
        w.buffer(limits::MAX_NAME_SIZE, self.index_name, src, out)
            .buffer(limits::MAX_DIGEST_SIZE, self.nv_digest, src, out)
    }
}
