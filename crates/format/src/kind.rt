// The kinds of records, and the number of each, which stands in front of it in a deposit.
ghost use Rattle.std.specs.Prelude.{◌≡◌};
ghost use Rattle.format.specs.Kinds.{is_kind};
ghost use Rattle.format.specs.Numbers.{number_of, Decodes};

use faults::Refusal;

#[derive(Clone, Copy, Debug, PartialEq, Eq)]
pub enum Kind {
    TpmtHa = 1,
    TpmtSymDef,
    TpmtKdfScheme,
    TpmtKeyedhashScheme,
    TpmtSigScheme,
    TpmtRsaScheme,
    TpmtEccScheme,
    TpmtRsaDecrypt,
    TpmtPublicParms,
    TpmtSignature,
    TpmtPublic,
    TpmtSensitive,
    TpmsAttest,
    TpmlPcrSelection,
    TpmsCapabilityData,
    TpmtNvPublic2,
    TpmtTkCreation,
    TpmtTkVerified,
    TpmtTkHashcheck,
    TpmtTkAuth,
}

impl Kind {
    // The kind's number.
    pub fn number(self) -> u8
        ensures { result ≡ number_of self }
    {
        self as u8
    }
}

impl TryFrom<u8> for Kind {
    type Error = Refusal;

    ghost try_from_gives = { Decodes };

    // The kind of that number; BadKind where there is none.
    fn try_from(number: u8) -> Result<Self, Refusal> {
        match number {
            1 => Ok(Kind::TpmtHa),
            2 => Ok(Kind::TpmtSymDef),
            3 => Ok(Kind::TpmtKdfScheme),
            4 => Ok(Kind::TpmtKeyedhashScheme),
            5 => Ok(Kind::TpmtSigScheme),
            6 => Ok(Kind::TpmtRsaScheme),
            7 => Ok(Kind::TpmtEccScheme),
            8 => Ok(Kind::TpmtRsaDecrypt),
            9 => Ok(Kind::TpmtPublicParms),
            10 => Ok(Kind::TpmtSignature),
            11 => Ok(Kind::TpmtPublic),
            12 => Ok(Kind::TpmtSensitive),
            13 => Ok(Kind::TpmsAttest),
            14 => Ok(Kind::TpmlPcrSelection),
            15 => Ok(Kind::TpmsCapabilityData),
            16 => Ok(Kind::TpmtNvPublic2),
            17 => Ok(Kind::TpmtTkCreation),
            18 => Ok(Kind::TpmtTkVerified),
            19 => Ok(Kind::TpmtTkHashcheck),
            20 => Ok(Kind::TpmtTkAuth),
            _ => Err(Refusal::bad_kind(u64::from(number))),
        }
    }
}

// Whether there is a kind of that number.
pub fn is_kind(number: u8) -> bool
    ensures { result ≡ is_kind number }
{
    Kind::try_from(number).is_ok()
}
