// Numbers of a record, walked over, and the places where an arm is due. What a walk does most, judging and putting, comes first.
ghost use Rattle.std.specs.Prelude.{◌≡◌, Bool, true, cond, ◌+◌, leb};
ghost use Rattle.faults.specs.declared.Refusal.{Refusal};
ghost use Rattle.faults.specs.Faults.{bad_value};
ghost use Rattle.wire.specs.declared.width.Width.TheVariants.{One, Two, Four};
ghost use Rattle.wire.specs.Answers.{width_of};
ghost use Rattle.wire.specs.Bytes.{digits};
ghost use Rattle.wire.specs.Layout.{free, listed};
ghost use Rattle.wire.specs.Records.{found};
ghost use Rattle.codes.specs.Codes.{yes_no, magic, ticket_tag};
ghost use Rattle.steps.specs.Walks.{here, judging, refusing, Moves, put_one, number_walk, Numbers, Dues};

use crate::walk::{FAR, JUDGE, PUT, Walk, judging, putting, refusing};
use codes::code::Code;
use codes::{Ticket, TpmSt};
use faults::Refusal;
use puts::write::put_number;
use text::line::Word;
use wire::number::Number;
use wire::width::Width;

// A number at the place `at` of out, and the place behind it.
pub(crate) fn put_digits(n: u64, w: Width, out: &mut [u8], at: usize) -> usize
    ensures { Moves (found (digits (width_of w) n)) at out.old result out.new }
{
    match put_number(n, w, out, at) {
        Ok(k) => at + k,
        Err(_) => at,
    }
}

impl Walk {
    // A number that is put.
    fn put(self, w: Width, n: u64, out: &mut [u8]) -> Walk
        ensures { here result out.new ≡ put_one (found (digits (width_of w) n)) self.at out.old }
    {
        putting(put_digits(n, w, out, self.at))
    }

    // A number that is judged: whether its field takes it, and the refusal of it.
    fn judged(self, good: bool, w: Width, f: Refusal) -> Walk
        ensures { result ≡ cond (leb self.at 0x1000000) (cond good (judging (self.at + width_of w)) (refusing f)) self }
    {
        if self.at <= FAR {
            if good {
                return judging(self.at + w.bytes());
            }
            return refusing(f);
        }
        self
    }

    // A number where nothing is judged or put.
    fn listed(self, word: Word, w: Width, n: u64, out: &mut [u8]) -> Walk
        ensures { (good : Bool) (f : Refusal) → (self.mode ≡ 0 → ⊥) → (self.mode ≡ 1 → ⊥) → here result out.new ≡ number_walk good word w n f self out.old }
    {
        if self.at <= FAR {
            return self
                .number_line(self.at, word, w, n, out)
                .to_place(self.at + w.bytes());
        }
        self
    }

    // A number where nothing is put.
    fn aside(self, good: bool, word: Word, w: Width, n: u64, f: Refusal, out: &mut [u8]) -> Walk
        ensures { (self.mode ≡ 1 → ⊥) → here result out.new ≡ number_walk good word w n f self out.old }
    {
        if self.mode == JUDGE {
            return self.judged(good, w, f);
        }
        self.listed(word, w, n, out)
    }

    // A code where nothing is put.
    fn code_aside<C: Code>(self, c: C, out: &mut [u8]) -> Walk
        ensures { (self.mode ≡ 1 → ⊥) → Numbers C.width (listed C.is_listed) (C.number c) (here self out.old) (here result out.new) }
    {
        let n = c.number();
        self.aside(
            c.is_listed(),
            Word::Code,
            C::width(),
            n,
            Refusal::unknown_code(self.at, n),
            out,
        )
    }

    // A code, of whatever sort.
    pub fn code<C: Code>(self, c: C, out: &mut [u8]) -> Walk
        ensures { Numbers C.width (listed C.is_listed) (C.number c) (here self out.old) (here result out.new) }
    {
        if self.mode == PUT {
            return self.put(C::width(), c.number(), out);
        }
        self.code_aside(c, out)
    }

    // The tag of that ticket.
    pub fn ticket_tag(self, ticket: Ticket, t: TpmSt, out: &mut [u8]) -> Walk
        ensures { Numbers Two (ticket_tag ticket) t.0 (here self out.old) (here result out.new) }
    {
        let n = t.number();
        if self.mode == PUT {
            return self.put(Width::Two, n, out);
        }
        self.aside(
            t.is_tag_of(ticket),
            Word::Number,
            Width::Two,
            n,
            Refusal::bad_value(self.at, n),
            out,
        )
    }

    pub fn yes_no(self, b: u8, out: &mut [u8]) -> Walk
        ensures { Numbers One yes_no b (here self out.old) (here result out.new) }
    {
        let n = b.number();
        if self.mode == PUT {
            return self.put(Width::One, n, out);
        }
        self.aside(
            n <= 1,
            Word::Number,
            Width::One,
            n,
            Refusal::bad_value(self.at, n),
            out,
        )
    }

    pub fn magic(self, m: u32, out: &mut [u8]) -> Walk
        ensures { Numbers Four magic m (here self out.old) (here result out.new) }
    {
        let n = m.number();
        if self.mode == PUT {
            return self.put(Width::Four, n, out);
        }
        self.aside(
            n == 0xFF544347,
            Word::Number,
            Width::Four,
            n,
            Refusal::bad_value(self.at, n),
            out,
        )
    }

    // A number that its field takes whatever it is.
    fn free(self, w: Width, n: u64, out: &mut [u8]) -> Walk
        ensures { here result out.new ≡ number_walk true Word.Number w n (bad_value self.at n) self out.old }
    {
        if self.mode == PUT {
            return self.put(w, n, out);
        }
        if self.mode == JUDGE {
            return self.judged(true, w, Refusal::bad_value(self.at, n));
        }
        self.listed(Word::Number, w, n, out)
    }

    // A number of the language, of whatever width.
    pub fn number<N: Number>(self, n: N, out: &mut [u8]) -> Walk
        ensures { Numbers N.width free (N.number n) (here self out.old) (here result out.new) }
    {
        self.free(N::width(), n.number(), out)
    }

    // Where the arm of a union is due: the one that the selector chooses, and whether it is held.
    pub fn due<N: Number>(self, selector: N, chosen: Option<u16>, held: bool) -> Walk
        ensures { Dues (N.number selector) chosen held self result }
    {
        if self.mode != JUDGE {
            return self;
        }
        match chosen {
            Some(_) => {
                if held {
                    return self;
                }
                refusing(Refusal::mismatch(self.at, selector.number()))
            }
            None => refusing(Refusal::no_arm(self.at, selector.number())),
        }
    }
}
