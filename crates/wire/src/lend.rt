// How much of a buffer is lent to the writer of what was measured.
ghost use Rattle.std.specs.Prelude.{◌≤◌, ◌≡◌};
ghost use Rattle.wire.specs.Answers.{measure_answer};
ghost use Rattle.wire.specs.Filling.{lend};

use faults::Refusal;

// How many of so many bytes to lend: just as many as were measured; all, where there are fewer; none, where it is refused.
pub fn lend(measured: Result<usize, Refusal>, there: usize) -> usize
    ensures { (result ≡ lend (measure_answer measured) there) × (result ≤ there) }
{
    match measured {
        Ok(n) => if n <= there { n } else { there },
        Err(_) => 0,
    }
}
