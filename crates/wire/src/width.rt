// The widths of the numbers on the wire, in bytes. A width is an enum, so that no width is out of range.
ghost use Rattle.std.specs.Prelude.{◌≡◌};
ghost use Rattle.wire.specs.Answers.{width_of};

#[derive(Clone, Copy, Debug, PartialEq, Eq)]
pub enum Width {
    One = 1,
    Two = 2,
    Four = 4,
    Eight = 8,
}

impl Width {
    // How many bytes a number of this width has.
    pub fn bytes(self) -> usize
        ensures { result ≡ width_of self }
    {
        self as usize
    }
}
