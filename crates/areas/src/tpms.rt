// The structures of NV areas: the index, its name algorithm and its attributes, and behind them what both end with.
ghost use Rattle.std.specs.Prelude.{[], refl};
ghost use Rattle.format.specs.Kinds.{nv_public_tail, tpms_nv_public, tpms_nv_public_exp_attr};
ghost use Rattle.areas.specs.Parts.{tpms_nv_public_parts, tpms_nv_public_exp_attr_parts, nv_public_tail_parts};

use codes::TpmAlgId;
use format::limits;
use steps::marshal::TpmMarshal;
use steps::walk::Walk;
use wire::read::{Read, buffer, number};
use wire::span::Span;
use wire::unmarshal::TpmUnmarshal;
use wire::width::Width;

// The attributes of an NV area, as they stand.
#[derive(Clone, Copy)]
pub struct TpmaNv(pub u32);

// The expanded attributes.
#[derive(Clone, Copy)]
pub struct TpmaNvExp(pub u64);

#[derive(Clone, Copy)]
pub struct NvPublicTail {
    pub auth_policy: Span,
    pub data_size: u16,
}

#[derive(Clone, Copy)]
pub struct TpmsNvPublic {
    pub nv_index: u32,
    pub name_alg: TpmAlgId,
    pub attributes: TpmaNv,
    pub auth_policy: Span,
    pub data_size: u16,
}

#[derive(Clone, Copy)]
pub struct TpmsNvPublicExpAttr {
    pub nv_index: u32,
    pub name_alg: TpmAlgId,
    pub attributes: TpmaNvExp,
    pub auth_policy: Span,
    pub data_size: u16,
}

impl TpmUnmarshal for NvPublicTail {
    ghost layout = { nv_public_tail };

    ghost parts = { nv_public_tail_parts };

    fn unmarshal(s: &[u8], at: usize) -> Read<Self> {
        let (auth_policy, end) = buffer(s, at, Width::Two, limits::MAX_DIGEST_SIZE)?;
        let (data_size, end) = u16::unmarshal(s, end)?;
        Ok((
            Self {
                auth_policy,
                data_size,
            },
            end,
        ))
    }
}

impl TpmUnmarshal for TpmsNvPublic {
    ghost layout = { tpms_nv_public };

    ghost parts = { tpms_nv_public_parts };

    fn unmarshal(s: &[u8], at: usize) -> Read<Self> {
        let (nv_index, end) = u32::unmarshal(s, at)?;
        let (name_alg, end) = TpmAlgId::unmarshal(s, end)?;
        let (attributes, end) = u32::unmarshal(s, end)?;
        let (tail, end) = NvPublicTail::unmarshal(s, end)?;
        let area = Self {
            nv_index,
            name_alg,
            attributes: TpmaNv(attributes),
            auth_policy: tail.auth_policy,
            data_size: tail.data_size,
        };
        Ok((area, end))
    }
}

impl TpmMarshal for TpmsNvPublic {
    ghost lists = { λ _. [] };

    ghost one_list = { λ _. refl };

    ghost steps = { 5 };

    ghost few = { refl };

    fn walk(self, w: Walk, src: &[u8], out: &mut [u8]) -> Walk {
        w.number(self.nv_index, out)
            .code(self.name_alg, out)
            .number(self.attributes.0, out)
            .buffer(limits::MAX_DIGEST_SIZE, self.auth_policy, src, out)
            .number(self.data_size, out)
    }
}

impl TpmUnmarshal for TpmsNvPublicExpAttr {
    ghost layout = { tpms_nv_public_exp_attr };

    ghost parts = { tpms_nv_public_exp_attr_parts };

    fn unmarshal(s: &[u8], at: usize) -> Read<Self> {
        let (nv_index, end) = u32::unmarshal(s, at)?;
        let (name_alg, end) = TpmAlgId::unmarshal(s, end)?;
        let (attributes, end) = u64::unmarshal(s, end)?;
        let (tail, end) = NvPublicTail::unmarshal(s, end)?;
        let area = Self {
            nv_index,
            name_alg,
            attributes: TpmaNvExp(attributes),
            auth_policy: tail.auth_policy,
            data_size: tail.data_size,
        };
        Ok((area, end))
    }
}

impl TpmMarshal for TpmsNvPublicExpAttr {
    ghost lists = { λ _. [] };

    ghost one_list = { λ _. refl };

    ghost steps = { 5 };

    ghost few = { refl };

    fn walk(self, w: Walk, src: &[u8], out: &mut [u8]) -> Walk {
        w.number(self.nv_index, out)
            .code(self.name_alg, out)
            .number(self.attributes.0, out)
            .buffer(limits::MAX_DIGEST_SIZE, self.auth_policy, src, out)
            .number(self.data_size, out)
    }
}
