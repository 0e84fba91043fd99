// What a layout spells, walked over, measured and written. The trait has the name that the Rust crate gives it.
//
// `walk` goes over the fields in wire order, for whatever the walk is for. `measure` judges: it answers how many bytes they are written
// as, or the refusal of the first field that may not be written, and takes no output. `marshal` writes: it measures first, and not a byte
// is put unless all of it is legal and fits. `field` is the part of s at the byte field with an index, empty where there is none, and
// `field_size` says how long it is or why there is none. The spans of a record are of the slice that it was read from.
ghost use Rattle.std.specs.Prelude.{ℕ, List, ◌≡◌, true, leb, length, []};
ghost use Rattle.faults.specs.Faults.{no_field};
ghost use Rattle.wire.specs.Answers.{measure_answer};
ghost use Rattle.wire.specs.Records.{Part, refused};
ghost use Rattle.wire.specs.Fields.{part_of, size_of, field_of};
ghost use Rattle.wire.specs.Places.{StandsAt, start_at};
ghost use Rattle.steps.specs.Walks.{here, Walks};
ghost use Rattle.steps.specs.Writes.{Measures, Writes};

use crate::walk::{Walk, judging, ready, seeking};
use faults::Refusal;
use wire::unmarshal::TpmUnmarshal;

pub trait TpmMarshal: TpmUnmarshal {
    // The lists that it holds, of which there is at most one.
    ghost lists: { Self → List Part };

    ghost one_list: { (x : Self) → leb (length (lists x)) 1 ≡ true };

    // No walk over it has more steps.
    ghost steps: { ℕ };

    ghost few: { leb steps 24 ≡ true };

    fn walk(self, w: Walk, src: &[u8], out: &mut [u8]) -> Walk
        ensures { Walks steps Self.layout (Self.parts self) (lists self) src.now (here w out.old) (here result out.new) };

    fn measure(self, src: &[u8]) -> Result<usize, Refusal>
        ensures { Measures Self.layout (Self.parts self) src.now result }
    {
        self.walk(judging(0), src, &mut []).answer()
    }

    fn marshal(self, src: &[u8], out: &mut [u8]) -> Result<usize, Refusal>
        ensures { Writes Self.layout (Self.parts self) src.now out.old result out.new }
    {
        let w = ready(self.measure(src), out.len());
        self.walk(w, src, out).answer()
    }

    fn field<'a>(self, s: &'a [u8], index: usize) -> &'a [u8]
        ensures part { result.now ≡ part_of (field_of (Self.parts self) index s.now) }
        ensures place { StandsAt s.entry result (start_at (Self.parts self) index s.now) }
    {
        self.walk(seeking(index), s, &mut []).part(s)
    }

    fn field_size(self, s: &[u8], index: usize) -> Result<usize, Refusal>
        ensures { measure_answer result ≡ size_of (field_of (Self.parts self) index s.now) }
    {
        self.walk(seeking(index), s, &mut []).size(s, index)
    }
}

// A record that holds no list, and so has no item.
pub trait Listless: TpmMarshal {
    fn item<'a>(self, s: &'a [u8], index: usize) -> &'a [u8]
        ensures part { result.now ≡ [] }
        ensures place { StandsAt s.entry result 0 }
    {
        &s[0..0]
    }

    fn item_size(self, s: &[u8], index: usize) -> Result<usize, Refusal>
        ensures { measure_answer result ≡ refused (no_field index) }
    {
        Err(Refusal::no_field(index))
    }
}
