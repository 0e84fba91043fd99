// Records that hold a list: their items, by index. The whole list is judged first, as a writer judges it.
ghost use Rattle.std.specs.Prelude.{◌≡◌};
ghost use Rattle.wire.specs.Answers.{measure_answer};
ghost use Rattle.wire.specs.Fields.{part_of, size_of};
ghost use Rattle.wire.specs.Items.{item_of};
ghost use Rattle.wire.specs.Places.{StandsAt, item_start};
ghost use Rattle.format.specs.declared.list.ListOf.{ListOf};
ghost use Rattle.format.specs.Kinds.{item_layout, most_items};

use crate::item::{item, item_size};
use faults::Refusal;
use format::list::ListOf;
use steps::marshal::TpmMarshal;
use steps::walk::list_seeking;

pub trait Listed: TpmMarshal {
    // What its items are.
    ghost which: { Self → ListOf };

    fn which(self) -> ListOf
        ensures { result ≡ which self };

    // The part of s at the item with that index; where there is none, the empty one at its start.
    fn item<'a>(self, s: &'a [u8], index: usize) -> &'a [u8]
        ensures part { result.now ≡ part_of (item_of (most_items (which self)) (item_layout (which self)) (Self.lists self) index s.now) }
        ensures place { StandsAt s.entry result (item_start (most_items (which self)) (item_layout (which self)) (Self.lists self) index s.now) }
    {
        let found = self.walk(list_seeking(), s, &mut []);
        item(found, self.which(), s, index)
    }

    // How long it is, or why there is none.
    fn item_size(self, s: &[u8], index: usize) -> Result<usize, Refusal>
        ensures { measure_answer result ≡ size_of (item_of (most_items (which self)) (item_layout (which self)) (Self.lists self) index s.now) }
    {
        let found = self.walk(list_seeking(), s, &mut []);
        item_size(found, self.which(), s, index)
    }
}
