// Kind 11: the public area. It has the calls that a kind has (ciphers, tpmt.rt).
ghost use Rattle.std.specs.Prelude.{[], refl};
ghost use Rattle.format.specs.Kinds.{tpmt_public};
ghost use Rattle.keys.specs.Parts.{tpmt_public_parts};

use crate::tpmu::TpmuPublicId;
use codes::TpmAlgId;
use format::limits;
use parameters::tpmu::TpmuPublicParms;
use steps::marshal::{Listless, TpmMarshal};
use steps::tagged::TpmTagged;
use steps::walk::Walk;
use wire::read::{Read, buffer};
use wire::span::Span;
use wire::unmarshal::TpmUnmarshal;
use wire::width::Width;

// The attributes of an object, as they stand.
#[derive(Clone, Copy)]
pub struct TpmaObject(pub u32);

#[derive(Clone, Copy)]
pub struct TpmtPublic {
    pub object_type: TpmAlgId,
    pub name_alg: TpmAlgId,
    pub object_attributes: TpmaObject,
    pub auth_policy: Span,
    pub parameters: TpmuPublicParms,
    pub unique: TpmuPublicId,
}

impl TpmUnmarshal for TpmtPublic {
    ghost layout = { tpmt_public };

    ghost parts = { tpmt_public_parts };

    // Kind 11, TPMT_PUBLIC, read.
    fn unmarshal(s: &[u8], at: usize) -> Read<Self> {
        let (object_type, end) = TpmAlgId::unmarshal(s, at)?;
        let (name_alg, end) = TpmAlgId::unmarshal(s, end)?;
        let (attributes, end) = u32::unmarshal(s, end)?;
        let (auth_policy, end) = buffer(s, end, Width::Two, limits::MAX_DIGEST_SIZE)?;
        let (parameters, end) = TpmuPublicParms::unmarshal_tagged(object_type, s, end)?;
        let (unique, end) = TpmuPublicId::unmarshal_tagged(object_type, s, end)?;
        let area = Self {
            object_type,
            name_alg,
            object_attributes: TpmaObject(attributes),
            auth_policy,
            parameters,
            unique,
        };
        Ok((area, end))
    }
}

impl TpmMarshal for TpmtPublic {
    ghost lists = { λ _. [] };

    ghost one_list = { λ _. refl };

    ghost steps = { 21 };

    ghost few = { refl };

    fn walk(self, w: Walk, src: &[u8], out: &mut [u8]) -> Walk {
        let v = w
            .code(self.object_type, out)
            .code(self.name_alg, out)
            .number(self.object_attributes.0, out)
            .buffer(limits::MAX_DIGEST_SIZE, self.auth_policy, src, out);
        let u = self.parameters.walk_tagged(self.object_type, v, src, out);
        self.unique.walk_tagged(self.object_type, u, src, out)
    }
}

impl Listless for TpmtPublic {}
