// The union of attestations: what the TPM attests to, by the attestation's type. It has the calls of `TpmTagged` (steps).
ghost use Rattle.format.specs.Kinds.{tpmu_attest_arm, tpmu_attest};
ghost use Rattle.attest.specs.Parts.{tpmu_attest_parts, tpmu_attest_lists};

use crate::tpms::{
    TpmsCertifyInfo, TpmsCommandAuditInfo, TpmsCreationInfo, TpmsNvCertifyInfo,
    TpmsNvDigestCertifyInfo, TpmsQuoteInfo, TpmsSessionAuditInfo, TpmsTimeAttestInfo,
};
use codes::TpmSt;
use faults::Refusal;
use format::arms::attest_arm;
use steps::marshal::TpmMarshal;
use steps::tagged::TpmTagged;
use steps::walk::Walk;
use wire::read::Read;
use wire::unmarshal::TpmUnmarshal;

#[derive(Clone, Copy)]
pub enum TpmuAttest {
    Certify(TpmsCertifyInfo),
    Creation(TpmsCreationInfo),
    Quote(TpmsQuoteInfo),
    CommandAudit(TpmsCommandAuditInfo),
    SessionAudit(TpmsSessionAuditInfo),
    Time(TpmsTimeAttestInfo),
    Nv(TpmsNvCertifyInfo),
    NvDigest(TpmsNvDigestCertifyInfo),
}

impl TpmTagged for TpmuAttest {
    type Tag = TpmSt;

    ghost arm = { tpmu_attest_arm };

    ghost layout = { tpmu_attest };

    ghost parts = { tpmu_attest_parts };

    ghost lists = { tpmu_attest_lists };

    ghost steps = { 7 };

    fn unmarshal_tagged(tag: TpmSt, s: &[u8], at: usize) -> Read<Self> {
        match tag {
            TpmSt::AttestCertify => {
                let (x, end) = TpmsCertifyInfo::unmarshal(s, at)?;
                Ok((Self::Certify(x), end))
            }
            TpmSt::AttestCreation => {
                let (x, end) = TpmsCreationInfo::unmarshal(s, at)?;
                Ok((Self::Creation(x), end))
            }
            TpmSt::AttestQuote => {
                let (x, end) = TpmsQuoteInfo::unmarshal(s, at)?;
                Ok((Self::Quote(x), end))
            }
            TpmSt::AttestCommandAudit => {
                let (x, end) = TpmsCommandAuditInfo::unmarshal(s, at)?;
                Ok((Self::CommandAudit(x), end))
            }
            TpmSt::AttestSessionAudit => {
                let (x, end) = TpmsSessionAuditInfo::unmarshal(s, at)?;
                Ok((Self::SessionAudit(x), end))
            }
            TpmSt::AttestTime => {
                let (x, end) = TpmsTimeAttestInfo::unmarshal(s, at)?;
                Ok((Self::Time(x), end))
            }
            TpmSt::AttestNv => {
                let (x, end) = TpmsNvCertifyInfo::unmarshal(s, at)?;
                Ok((Self::Nv(x), end))
            }
            TpmSt::AttestNvDigest => {
                let (x, end) = TpmsNvDigestCertifyInfo::unmarshal(s, at)?;
                Ok((Self::NvDigest(x), end))
            }
            _ => Err(Refusal::no_arm(at, u64::from(tag.0))),
        }
    }

    fn matches_tag(self, tag: TpmSt) -> bool {
        match self {
            Self::Certify(_) => tag.0 == TpmSt::AttestCertify.0,
            Self::Creation(_) => tag.0 == TpmSt::AttestCreation.0,
            Self::Quote(_) => tag.0 == TpmSt::AttestQuote.0,
            Self::CommandAudit(_) => tag.0 == TpmSt::AttestCommandAudit.0,
            Self::SessionAudit(_) => tag.0 == TpmSt::AttestSessionAudit.0,
            Self::Time(_) => tag.0 == TpmSt::AttestTime.0,
            Self::Nv(_) => tag.0 == TpmSt::AttestNv.0,
            Self::NvDigest(_) => tag.0 == TpmSt::AttestNvDigest.0,
        }
    }

    fn walk_tagged(self, tag: TpmSt, w: Walk, src: &[u8], out: &mut [u8]) -> Walk {
        let v = w.due(tag, attest_arm(tag), self.matches_tag(tag));
        match self {
            Self::Certify(x) => x.walk(v, src, out),
            Self::Creation(x) => x.walk(v, src, out),
            Self::Quote(x) => x.walk(v, src, out),
            Self::CommandAudit(x) => x.walk(v, src, out),
            Self::SessionAudit(x) => x.walk(v, src, out),
            Self::Time(x) => x.walk(v, src, out),
            Self::Nv(x) => x.walk(v, src, out),
            Self::NvDigest(x) => x.walk(v, src, out),
        }
    }
}
