// The items of lists that are structures. `unmarshal` reads one where it stands.
ghost use Rattle.format.specs.Kinds.{tpms_pcr_selection, tpms_alg_property, tpms_tagged_property, tpms_tagged_policy, tpms_act_data};
ghost use Rattle.items.specs.Parts.{tpms_pcr_selection_parts, tpms_alg_property_parts, tpms_tagged_property_parts, tpms_tagged_policy_parts, tpms_act_data_parts};

use ciphers::tpmt::TpmtHa;
use codes::TpmAlgId;
use wire::read::{Read, buffer};
use wire::span::Span;
use wire::unmarshal::TpmUnmarshal;
use wire::width::Width;

// TPMS_PCR_SELECTION: a bank, and the bits of its registers.
#[derive(Clone, Copy)]
pub struct TpmsPcrSelection {
    pub hash: TpmAlgId,
    pub pcr_select: Span,
}

// TPMS_ALG_PROPERTY: an algorithm and its attributes.
#[derive(Clone, Copy)]
pub struct TpmsAlgProperty {
    pub alg: TpmAlgId,
    pub alg_properties: u32,
}

// TPMS_TAGGED_PROPERTY: a tag and a value, both any number.
#[derive(Clone, Copy)]
pub struct TpmsTaggedProperty {
    pub property: u32,
    pub value: u32,
}

// TPMS_TAGGED_POLICY: a handle, and the digest of its policy.
#[derive(Clone, Copy)]
pub struct TpmsTaggedPolicy {
    pub handle: u32,
    pub policy_hash: TpmtHa,
}

// TPMS_ACT_DATA: a timer's handle, its timeout and its attributes.
#[derive(Clone, Copy)]
pub struct TpmsActData {
    pub handle: u32,
    pub timeout: u32,
    pub attributes: u32,
}

impl TpmUnmarshal for TpmsPcrSelection {
    ghost layout = { tpms_pcr_selection };

    ghost parts = { tpms_pcr_selection_parts };

    fn unmarshal(s: &[u8], at: usize) -> Read<Self> {
        let (hash, end) = TpmAlgId::unmarshal(s, at)?;
        let (pcr_select, end) = buffer(s, end, Width::One, 4)?;
        Ok((Self { hash, pcr_select }, end))
    }
}

impl TpmUnmarshal for TpmsAlgProperty {
    ghost layout = { tpms_alg_property };

    ghost parts = { tpms_alg_property_parts };

    fn unmarshal(s: &[u8], at: usize) -> Read<Self> {
        let (alg, end) = TpmAlgId::unmarshal(s, at)?;
        let (alg_properties, end) = u32::unmarshal(s, end)?;
        Ok((
            Self {
                alg,
                alg_properties,
            },
            end,
        ))
    }
}

impl TpmUnmarshal for TpmsTaggedProperty {
    ghost layout = { tpms_tagged_property };

    ghost parts = { tpms_tagged_property_parts };

    fn unmarshal(s: &[u8], at: usize) -> Read<Self> {
        let (property, end) = u32::unmarshal(s, at)?;
        let (value, end) = u32::unmarshal(s, end)?;
        Ok((Self { property, value }, end))
    }
}

impl TpmUnmarshal for TpmsTaggedPolicy {
    ghost layout = { tpms_tagged_policy };

    ghost parts = { tpms_tagged_policy_parts };

    fn unmarshal(s: &[u8], at: usize) -> Read<Self> {
        let (handle, end) = u32::unmarshal(s, at)?;
        let (policy_hash, end) = TpmtHa::unmarshal(s, end)?;
        Ok((
            Self {
                handle,
                policy_hash,
            },
            end,
        ))
    }
}

impl TpmUnmarshal for TpmsActData {
    ghost layout = { tpms_act_data };

    ghost parts = { tpms_act_data_parts };

    fn unmarshal(s: &[u8], at: usize) -> Read<Self> {
        let (handle, end) = u32::unmarshal(s, at)?;
        let (timeout, end) = u32::unmarshal(s, end)?;
        let (attributes, end) = u32::unmarshal(s, end)?;
        Ok((
            Self {
                handle,
                timeout,
                attributes,
            },
            end,
        ))
    }
}
