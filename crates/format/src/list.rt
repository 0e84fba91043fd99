// The lists that records hold, by their items.
ghost use Rattle.std.specs.Prelude.{◌≡◌};
ghost use Rattle.format.specs.Kinds.{most_items};

#[derive(Clone, Copy)]
pub enum ListOf {
    AlgProperty,
    Handle,
    Cca,
    Cc,
    PcrSelection,
    TaggedTpmProperty,
    EccCurve,
    TaggedPolicy,
    ActData,
}

impl ListOf {
    // How many items a list has at most.
    pub fn most(self) -> u32
        ensures { result ≡ most_items self }
    {
        match self {
            ListOf::AlgProperty => 128,
            ListOf::Handle => 128,
            ListOf::Cca => 128,
            ListOf::Cc => 128,
            ListOf::PcrSelection => 16,
            ListOf::TaggedTpmProperty => 128,
            ListOf::EccCurve => 128,
            ListOf::TaggedPolicy => 16,
            ListOf::ActData => 16,
        }
    }
}
