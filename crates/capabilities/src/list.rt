// The lists of capabilities, each kept as one span from its count on. That of PCR selections is kind 14, in attest.
use wire::span::Span;

// TPML_ALG_PROPERTY.
#[derive(Clone, Copy)]
pub struct TpmlAlgProperty {
    pub items: Span,
}

// TPML_HANDLE.
#[derive(Clone, Copy)]
pub struct TpmlHandle {
    pub items: Span,
}

// TPML_CCA: command attributes.
#[derive(Clone, Copy)]
pub struct TpmlCca {
    pub items: Span,
}

// TPML_CC: command codes.
#[derive(Clone, Copy)]
pub struct TpmlCc {
    pub items: Span,
}

// TPML_TAGGED_TPM_PROPERTY.
#[derive(Clone, Copy)]
pub struct TpmlTaggedTpmProperty {
    pub items: Span,
}

// TPML_ECC_CURVE.
#[derive(Clone, Copy)]
pub struct TpmlEccCurve {
    pub items: Span,
}

// TPML_TAGGED_POLICY.
#[derive(Clone, Copy)]
pub struct TpmlTaggedPolicy {
    pub items: Span,
}

// TPML_ACT_DATA.
#[derive(Clone, Copy)]
pub struct TpmlActData {
    pub items: Span,
}
