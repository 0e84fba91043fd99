// Kinds 12 to 20 with what a case puts in place of a part: the selector, or a magic, a tag, a hierarchy or a span, of which nothing is said.
use crate::case::{Case, Part};
use crate::changed::Changed;
use crate::said::say_match;
use areas::tpms::{TpmsNvPublic, TpmsNvPublicExpAttr};
use areas::tpmt::{TpmtNvPublic2, TpmtTkAuth, TpmtTkCreation, TpmtTkHashcheck, TpmtTkVerified};
use areas::tpmu::TpmuNvPublic2;
use attest::attestation::TpmsAttest;
use attest::list::TpmlPcrSelection;
use capabilities::list::{
    TpmlActData, TpmlAlgProperty, TpmlCc, TpmlCca, TpmlEccCurve, TpmlHandle, TpmlTaggedPolicy,
    TpmlTaggedTpmProperty,
};
use capabilities::tpms::TpmsCapabilityData;
use capabilities::tpmu::TpmuCapabilities;
use codes::{TpmCap, TpmRh, TpmSt};
use sensitive::tpmt::TpmtSensitive;
use steps::tagged::TpmTagged;
use wire::span::Span;

impl Changed for TpmtSensitive {
    fn under(self, case: Case) -> Self {
        if case.part == Part::AuthValue {
            return Self {
                auth_value: case.span(),
                ..self
            };
        }
        let sensitive_type = case.algorithm();
        say_match(self.sensitive.matches_tag(sensitive_type));
        Self {
            sensitive_type,
            ..self
        }
    }
}

impl Changed for TpmsAttest {
    fn under(self, case: Case) -> Self {
        if case.part == Part::Magic {
            return Self {
                magic: u32::from(case.selector),
                ..self
            };
        }
        let attest_type = TpmSt(case.selector);
        say_match(self.attested.matches_tag(attest_type));
        Self {
            attest_type,
            ..self
        }
    }
}

// A list has no selector.
impl Changed for TpmlPcrSelection {
    fn under(self, _case: Case) -> Self {
        self
    }
}

// The same arm with another list.
fn with_items(held: TpmuCapabilities, items: Span) -> TpmuCapabilities {
    match held {
        TpmuCapabilities::Algs(_) => TpmuCapabilities::Algs(TpmlAlgProperty { items }),
        TpmuCapabilities::Handles(_) => TpmuCapabilities::Handles(TpmlHandle { items }),
        TpmuCapabilities::Commands(_) => TpmuCapabilities::Commands(TpmlCca { items }),
        TpmuCapabilities::PpCommands(_) => TpmuCapabilities::PpCommands(TpmlCc { items }),
        TpmuCapabilities::AuditCommands(_) => TpmuCapabilities::AuditCommands(TpmlCc { items }),
        TpmuCapabilities::Pcrs(_) => TpmuCapabilities::Pcrs(TpmlPcrSelection { items }),
        TpmuCapabilities::TpmProperties(_) => TpmuCapabilities::TpmProperties(
            TpmlTaggedTpmProperty { items },
        ),
        TpmuCapabilities::EccCurves(_) => TpmuCapabilities::EccCurves(TpmlEccCurve { items }),
        TpmuCapabilities::AuthPolicies(_) => TpmuCapabilities::AuthPolicies(TpmlTaggedPolicy {
            items,
        }),
        TpmuCapabilities::Act(_) => TpmuCapabilities::Act(TpmlActData { items }),
    }
}

impl Changed for TpmsCapabilityData {
    fn under(self, case: Case) -> Self {
        if case.part == Part::Items {
            return Self {
                data: with_items(self.data, case.span()),
                ..self
            };
        }
        let capability = TpmCap(case.wide());
        say_match(self.data.matches_tag(capability));
        Self { capability, ..self }
    }
}

// The same arm with another policy.
fn with_policy(held: TpmuNvPublic2, auth_policy: Span) -> TpmuNvPublic2 {
    match held {
        TpmuNvPublic2::NvIndex(p) => TpmuNvPublic2::NvIndex(TpmsNvPublic { auth_policy, ..p }),
        TpmuNvPublic2::ExternalNv(p) => TpmuNvPublic2::ExternalNv(TpmsNvPublicExpAttr {
            auth_policy,
            ..p
        }),
        TpmuNvPublic2::PermanentNv(p) => TpmuNvPublic2::PermanentNv(TpmsNvPublic {
            auth_policy,
            ..p
        }),
    }
}

impl Changed for TpmtNvPublic2 {
    fn under(self, case: Case) -> Self {
        if case.part == Part::Policy {
            return Self {
                public_area: with_policy(self.public_area, case.span()),
                ..self
            };
        }
        let handle_type = case.handle_type();
        say_match(self.public_area.matches_tag(handle_type));
        Self {
            handle_type,
            ..self
        }
    }
}

// What a ticket holds, with one of the three replaced.
fn ticket(case: Case, tag: TpmSt, hierarchy: TpmRh, digest: Span) -> (TpmSt, TpmRh, Span) {
    match case.part {
        Part::Hierarchy => (tag, TpmRh(case.wide()), digest),
        Part::Digest => (tag, hierarchy, case.span()),
        _ => (TpmSt(case.selector), hierarchy, digest),
    }
}

impl Changed for TpmtTkCreation {
    fn under(self, case: Case) -> Self {
        let (tag, hierarchy, digest) = ticket(case, self.tag, self.hierarchy, self.digest);
        Self {
            tag,
            hierarchy,
            digest,
        }
    }
}

impl Changed for TpmtTkVerified {
    fn under(self, case: Case) -> Self {
        let (tag, hierarchy, digest) = ticket(case, self.tag, self.hierarchy, self.digest);
        Self {
            tag,
            hierarchy,
            digest,
        }
    }
}

impl Changed for TpmtTkHashcheck {
    fn under(self, case: Case) -> Self {
        let (tag, hierarchy, digest) = ticket(case, self.tag, self.hierarchy, self.digest);
        Self {
            tag,
            hierarchy,
            digest,
        }
    }
}

impl Changed for TpmtTkAuth {
    fn under(self, case: Case) -> Self {
        let (tag, hierarchy, digest) = ticket(case, self.tag, self.hierarchy, self.digest);
        Self {
            tag,
            hierarchy,
            digest,
        }
    }
}
