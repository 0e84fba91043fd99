// List items, by index.
ghost use Rattle.std.specs.Prelude.{◌≡◌, List, ◌∷◌, [], length};
ghost use Rattle.wire.specs.Answers.{span_part, measure_answer};
ghost use Rattle.wire.specs.Records.{Part, found};
ghost use Rattle.wire.specs.Reading.{read, walk};
ghost use Rattle.wire.specs.Fields.{part_of, size_of, pick_field};
ghost use Rattle.wire.specs.Items.{pick_item, item_of};
ghost use Rattle.wire.specs.Places.{StandsAt, start_at, item_start};
ghost use Rattle.format.specs.Kinds.{item_layout, most_items};
ghost use Rattle.steps.specs.Walks.{seek_answer, seek_start};
ghost use Rattle.lists.specs.Items.{item_answer, item_from, ItemInside, ItemBehind};

use crate::list::{items_end, judge_list};
use faults::Refusal;
use format::list::ListOf;
use items::end::item_end;
use steps::walk::{FOUND, Walk};
use wire::span::Span;
use wire::unmarshal::TpmUnmarshal;

// Where the item of xs with that index stands, a list of `count` items that was judged.
fn item_at(which: ListOf, xs: &[u8], count: u32, index: usize) -> Result<Span, Refusal>
    requires { walk (λ s a. read (item_layout which) s a) count xs.now 4 ≡ found (length xs.now) }
    ensures { (item_answer result xs.now ≡ pick_item (λ s a. read (item_layout which) s a) count index index xs.now 4) × ItemInside result xs.now × ItemBehind result which index xs.now }
{
    if index >= count as usize {
        return Err(Refusal::no_field(index));
    }
    let start = items_end(which, xs, 4, index as u32)?;
    let end = item_end(which, xs, start)?;
    Ok(Span::new(start, end - start))
}

// Where the item with that index of the list with that span stands in s. The whole list is judged first, as a writer judges it.
fn item_in(which: ListOf, list: Span, s: &[u8], index: usize) -> Result<Span, Refusal>
    ensures s_value { item_answer result s.now ≡ item_of (most_items which) (item_layout which) (span_part list ∷ []) index s.now }
    ensures place { item_from result s.now ≡ item_start (most_items which) (item_layout which) (span_part list ∷ []) index s.now }
{
    judge_list(which, list, s, 0)?;
    let xs = list.part(s);
    let (count, _) = u32::unmarshal(xs, 0)?;
    let inner = item_at(which, xs, count, index)?;
    Ok(Span::new(list.start() + inner.start(), inner.len()))
}

// The item with that index of the list that was found; where there is none, the empty part at the slice's start.
pub fn item<'a>(w: Walk, which: ListOf, s: &'a [u8], index: usize) -> &'a [u8]
    ensures part { (ls : List Part) → pick_field ls 0 index s.now ≡ seek_answer w index s.now → result.now ≡ part_of (item_of (most_items which) (item_layout which) ls index s.now) }
    ensures place { (ls : List Part) → pick_field ls 0 index s.now ≡ seek_answer w index s.now → start_at ls 0 s.now ≡ seek_start w s.now → StandsAt s.entry result (item_start (most_items which) (item_layout which) ls index s.now) }
{
    if w.mode == FOUND {
        let len = w.value as usize;
        return match item_in(which, Span::new(w.at, len), s, index) {
            Ok(item) => item.part(s),
            Err(_) => &s[0..0],
        };
    }
    &s[0..0]
}

// How long it is, or why there is none.
pub fn item_size(w: Walk, which: ListOf, s: &[u8], index: usize) -> Result<usize, Refusal>
    ensures { (ls : List Part) → pick_field ls 0 index s.now ≡ seek_answer w index s.now → measure_answer result ≡ size_of (item_of (most_items which) (item_layout which) ls index s.now) }
{
    if w.mode == FOUND {
        let len = w.value as usize;
        let item = item_in(which, Span::new(w.at, len), s, index)?;
        return item.measure(s, 0);
    }
    Err(Refusal::no_field(index))
}
