// Numbers as they stand on the wire: those of the language, and the codes that have a type of their own.
ghost use Rattle.std.specs.Prelude.{◌≡◌, ℕ, ◌<◌, ◌^◌};
ghost use Rattle.wire.specs.declared.width.Width.{Width};
ghost use Rattle.wire.specs.declared.width.Width.TheVariants.{One, Two, Four, Eight};
ghost use Rattle.wire.specs.Answers.{width_of};

use crate::width::Width;

pub trait Number: Copy {
    ghost width: { Width };

    ghost number: { Self → ℕ };

    // How wide it is.
    fn width() -> Width
        ensures { result ≡ width };

    // Its value, which that width holds.
    fn number(self) -> u64
        ensures number { result ≡ number self }
        ensures fits { number self < 256 ^ width_of width };
}

impl Number for u8 {
    ghost width = { One };

    ghost number = { λ n. n };

    fn width() -> Width {
        Width::One
    }

    fn number(self) -> u64 {
        u64::from(self)
    }
}

impl Number for u16 {
    ghost width = { Two };

    ghost number = { λ n. n };

    fn width() -> Width {
        Width::Two
    }

    fn number(self) -> u64 {
        u64::from(self)
    }
}

impl Number for u32 {
    ghost width = { Four };

    ghost number = { λ n. n };

    fn width() -> Width {
        Width::Four
    }

    fn number(self) -> u64 {
        u64::from(self)
    }
}

impl Number for u64 {
    ghost width = { Eight };

    ghost number = { λ n. n };

    fn width() -> Width {
        Width::Eight
    }

    fn number(self) -> u64 {
        self
    }
}
