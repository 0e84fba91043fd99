// Kind 12: the sensitive area. It has the calls that a kind has (ciphers, tpmt.rt).
ghost use Rattle.std.specs.Prelude.{[], refl};
ghost use Rattle.format.specs.Kinds.{tpmt_sensitive};
ghost use Rattle.sensitive.specs.Parts.{tpmt_sensitive_parts};

use crate::tpmu::TpmuSensitiveComposite;
use codes::TpmAlgId;
use format::limits;
use steps::marshal::{Listless, TpmMarshal};
use steps::tagged::TpmTagged;
use steps::walk::Walk;
use wire::read::{Read, buffer};
use wire::span::Span;
use wire::unmarshal::TpmUnmarshal;
use wire::width::Width;

#[derive(Clone, Copy)]
pub struct TpmtSensitive {
    pub sensitive_type: TpmAlgId,
    pub auth_value: Span,
    pub seed_value: Span,
    pub sensitive: TpmuSensitiveComposite,
}

impl TpmUnmarshal for TpmtSensitive {
    ghost layout = { tpmt_sensitive };

    ghost parts = { tpmt_sensitive_parts };

    // Kind 12, TPMT_SENSITIVE, read.
    fn unmarshal(s: &[u8], at: usize) -> Read<Self> {
        let (sensitive_type, end) = TpmAlgId::unmarshal(s, at)?;
        let (auth_value, end) = buffer(s, end, Width::Two, limits::MAX_DIGEST_SIZE)?;
        let (seed_value, end) = buffer(s, end, Width::Two, limits::MAX_DIGEST_SIZE)?;
        let (sensitive, end) = TpmuSensitiveComposite::unmarshal_tagged(sensitive_type, s, end)?;
        Ok((
            Self {
                sensitive_type,
                auth_value,
                seed_value,
                sensitive,
            },
            end,
        ))
    }
}

impl TpmMarshal for TpmtSensitive {
    ghost lists = { λ _. [] };

    ghost one_list = { λ _. refl };

    ghost steps = { 5 };

    ghost few = { refl };

    fn walk(self, w: Walk, src: &[u8], out: &mut [u8]) -> Walk {
        let v = w
            .code(self.sensitive_type, out)
            .buffer(limits::MAX_DIGEST_SIZE, self.auth_value, src, out)
            .buffer(limits::MAX_DIGEST_SIZE, self.seed_value, src, out);
        self.sensitive.walk_tagged(self.sensitive_type, v, src, out)
    }
}

impl Listless for TpmtSensitive {}
