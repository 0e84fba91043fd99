// A record with what a case puts in place of a part of it, and kinds 1 to 11. Where a selector is replaced, the arm stays: it is said whether
// that is the one that the new selector chooses.
use crate::case::{Case, Part};
use crate::said::say_match;
use ciphers::tpmt::{TpmtHa, TpmtSymDef};
use faults::Refusal;
use keys::tpmt::TpmtPublic;
use parameters::tpms::{TpmsEccParms, TpmsKeyedhashParms, TpmsRsaParms, TpmsSymcipherParms};
use parameters::tpmt::TpmtPublicParms;
use parameters::tpmu::TpmuPublicParms;
use schemes::tpmt::{
    TpmtEccScheme, TpmtKdfScheme, TpmtKeyedhashScheme, TpmtRsaDecrypt, TpmtRsaScheme, TpmtSigScheme,
};
use signatures::tpmt::TpmtSignature;
use signatures::tpmu::TpmuSignature;
use steps::marshal::TpmMarshal;
use steps::tagged::TpmTagged;
use wire::unmarshal::TpmUnmarshal;

pub trait Changed: TpmMarshal {
    // With the number of the case in place of a part that every such record has.
    fn under(self, case: Case) -> Self;

    // The same, where the part may be missing, or a part of a second record is taken over, which stands in s too.
    fn changed(self, case: Case, _s: &[u8]) -> Result<Self, Refusal> {
        Ok(self.under(case))
    }
}

impl Changed for TpmtHa {
    fn under(self, case: Case) -> Self {
        let hash_alg = case.algorithm();
        say_match(self.digest.matches_tag(hash_alg));
        Self { hash_alg, ..self }
    }
}

impl Changed for TpmtSymDef {
    fn under(self, case: Case) -> Self {
        let algorithm = case.algorithm();
        say_match(self.key_bits.matches_tag(algorithm));
        say_match(self.mode.matches_tag(algorithm));
        Self { algorithm, ..self }
    }

    // With the mode of the second.
    fn changed(self, case: Case, s: &[u8]) -> Result<Self, Refusal> {
        let (other, _) = Self::whole(s, usize::from(case.second))?;
        let mixed = Self {
            mode: other.mode,
            ..self
        };
        Ok(mixed.under(case))
    }
}

impl Changed for TpmtKdfScheme {
    fn under(self, case: Case) -> Self {
        let scheme = case.algorithm();
        say_match(self.details.matches_tag(scheme));
        Self { scheme, ..self }
    }
}

impl Changed for TpmtKeyedhashScheme {
    fn under(self, case: Case) -> Self {
        let scheme = case.algorithm();
        say_match(self.details.matches_tag(scheme));
        Self { scheme, ..self }
    }
}

impl Changed for TpmtSigScheme {
    fn under(self, case: Case) -> Self {
        let scheme = case.algorithm();
        say_match(self.details.matches_tag(scheme));
        Self { scheme, ..self }
    }
}

impl Changed for TpmtRsaScheme {
    fn under(self, case: Case) -> Self {
        let scheme = case.algorithm();
        say_match(self.details.matches_tag(scheme));
        Self { scheme, ..self }
    }
}

impl Changed for TpmtEccScheme {
    fn under(self, case: Case) -> Self {
        let scheme = case.algorithm();
        say_match(self.details.matches_tag(scheme));
        Self { scheme, ..self }
    }
}

impl Changed for TpmtRsaDecrypt {
    fn under(self, case: Case) -> Self {
        let scheme = case.algorithm();
        say_match(self.details.matches_tag(scheme));
        Self { scheme, ..self }
    }
}

// The parameters with another selector in the arm that the case is about.
fn inside(held: TpmuPublicParms, case: Case) -> Result<TpmuPublicParms, Refusal> {
    match (case.part, held) {
        (Part::KeyedHashScheme, TpmuPublicParms::KeyedHash(p)) => {
            let scheme = p.scheme.under(case);
            Ok(TpmuPublicParms::KeyedHash(TpmsKeyedhashParms { scheme }))
        }
        (Part::SymCipherSym, TpmuPublicParms::SymCipher(p)) => {
            let sym = p.sym.under(case);
            Ok(TpmuPublicParms::SymCipher(TpmsSymcipherParms { sym }))
        }
        (Part::RsaSymmetric, TpmuPublicParms::Rsa(p)) => {
            let symmetric = p.symmetric.under(case);
            Ok(TpmuPublicParms::Rsa(TpmsRsaParms { symmetric, ..p }))
        }
        (Part::RsaScheme, TpmuPublicParms::Rsa(p)) => {
            let scheme = p.scheme.under(case);
            Ok(TpmuPublicParms::Rsa(TpmsRsaParms { scheme, ..p }))
        }
        (Part::EccScheme, TpmuPublicParms::Ecc(p)) => {
            let scheme = p.scheme.under(case);
            Ok(TpmuPublicParms::Ecc(TpmsEccParms { scheme, ..p }))
        }
        (Part::EccKdf, TpmuPublicParms::Ecc(p)) => {
            let kdf = p.kdf.under(case);
            Ok(TpmuPublicParms::Ecc(TpmsEccParms { kdf, ..p }))
        }
        _ => Err(case.no_such_case()),
    }
}

impl Changed for TpmtPublicParms {
    fn under(self, case: Case) -> Self {
        let object_type = case.algorithm();
        say_match(self.parameters.matches_tag(object_type));
        Self {
            object_type,
            ..self
        }
    }

    fn changed(self, case: Case, _s: &[u8]) -> Result<Self, Refusal> {
        if case.part == Part::Selector {
            return Ok(self.under(case));
        }
        let parameters = inside(self.parameters, case)?;
        Ok(Self { parameters, ..self })
    }
}

impl Changed for TpmtSignature {
    fn under(self, case: Case) -> Self {
        let sig_alg = case.algorithm();
        say_match(self.signature.matches_tag(sig_alg));
        Self { sig_alg, ..self }
    }

    fn changed(self, case: Case, _s: &[u8]) -> Result<Self, Refusal> {
        match (case.part, self.signature) {
            (Part::Selector, _) => Ok(self.under(case)),
            (_, TpmuSignature::Hmac(x)) => {
                let signature = TpmuSignature::Hmac(x.under(case));
                Ok(Self { signature, ..self })
            }
            _ => Err(case.no_such_case()),
        }
    }
}

impl Changed for TpmtPublic {
    fn under(self, case: Case) -> Self {
        let object_type = case.algorithm();
        say_match(self.parameters.matches_tag(object_type));
        say_match(self.unique.matches_tag(object_type));
        Self {
            object_type,
            ..self
        }
    }

    // With the unique part of the second.
    fn changed(self, case: Case, s: &[u8]) -> Result<Self, Refusal> {
        let (other, _) = Self::whole(s, usize::from(case.second))?;
        let mixed = Self {
            unique: other.unique,
            ..self
        };
        Ok(mixed.under(case))
    }
}
