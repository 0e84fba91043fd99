// Lists: a count, and so many items. Every list is a row of the format's table; what an item of each is stands in the crate items.
ghost use Rattle.std.specs.Prelude.{◌≡◌, ◌∷◌, [], ◌≤◌, length};
ghost use Rattle.wire.specs.Answers.{answer, span_parts, measure_answer};
ghost use Rattle.wire.specs.Layout.{counted, stop};
ghost use Rattle.wire.specs.Records.{found};
ghost use Rattle.wire.specs.Reading.{read, walk, list};
ghost use Rattle.format.specs.Kinds.{item_layout, most_items};
ghost use Rattle.steps.specs.Steps.{Items, spell_step, left_lines};
ghost use Rattle.steps.specs.Walks.{here, after, put_lines, line_step, Goes};
ghost use Rattle.steps.specs.Near.{Near};

use faults::Refusal;
use format::list::ListOf;
use items::end::item_end;
use items::lines::item_lines;
use steps::span::{judged, put_part};
use steps::walk::{FAR, JUDGE, LINES, LIST, PUT, Walk, finding, putting, refusing};
use text::line::Word;
use wire::read::Read;
use wire::span::Span;
use wire::unmarshal::TpmUnmarshal;
use wire::width::Width;

// Where `count` items from `at` on end. The walk stops at the first that is not one.
pub(crate) fn items_end(which: ListOf, s: &[u8], at: usize, count: u32) -> Result<usize, Refusal>
    ensures { measure_answer result ≡ walk (λ s a. read (item_layout which) s a) count s.entry.now at }
{
    let mut end = at;
    for _ in 0..count {
        end = item_end(which, s, end)?;
    }
    Ok(end)
}

// Where the list that begins at `at` ends.
pub fn list_end(which: ListOf, s: &[u8], at: usize) -> Result<usize, Refusal>
    ensures { measure_answer result ≡ list (most_items which) (λ s a. read (item_layout which) s a) s.entry.now at }
{
    let (count, end) = u32::unmarshal(s, at)?;
    if count <= which.most() {
        return items_end(which, s, end, count);
    }
    Err(Refusal::too_many_items(at, u64::from(count)))
}

// The list that begins at `at`, from its count on, and the place behind it.
pub fn read_list(which: ListOf, s: &[u8], at: usize) -> Read<Span>
    ensures { answer span_parts result ≡ read (counted (most_items which) (item_layout which) stop) s.now at }
{
    let end = list_end(which, s, at)?;
    let len = end - at;
    Ok((Span::new(at, len), end))
}

// The place behind a list at `at`, or what is wrong with it. It is walked over with the reading rules.
pub(crate) fn judge_list(which: ListOf, span: Span, src: &[u8], at: usize) -> Result<usize, Refusal>
    requires { at ≤ 0x1000000 }
    ensures { (measure_answer result ≡ after at (spell_step (Items which span) src.now at)) × Near result at }
{
    let len = span.measure(src, at)?;
    match list_end(which, span.part(src), 0) {
        Ok(e) => {
            let end = at + e;
            if e == len {
                return Ok(end);
            }
            Err(Refusal::trailing(end, len - e))
        }
        Err(f) => {
            let place = at + f.place;
            Err(f.placed_at(place))
        }
    }
}

// The lines of `count` items of xs, a list that was judged and stands at `place`.
fn items_lines(which: ListOf, w: Walk, xs: &[u8], count: u32, place: usize, out: &mut [u8]) -> Walk
    requires { (place ≤ 0x10000) × (length xs.now ≤ 0x10000) × (walk (λ s a. read (item_layout which) s a) count xs.now 4 ≡ found (length xs.now)) }
    ensures { here result out.new ≡ put_lines (left_lines which count xs.now 4 place) (here w out.old) }
{
    let mut v = w;
    let mut at = 4;
    for _ in 0..count {
        (v, at) = item_lines(which, v, xs, at, place, out);
    }
    v
}

// The lines of a list, if it is one: that of its count, and those of its items.
fn list_lines(w: Walk, which: ListOf, span: Span, src: &[u8], out: &mut [u8]) -> Walk
    ensures { w.mode ≡ 3 → here result out.new ≡ line_step (Items which span) src.now w out.old }
{
    let at = w.at;
    if at > 0x10000 {
        return w;
    }
    match judge_list(which, span, src, at) {
        Ok(e) => {
            let xs = span.part(src);
            match u32::unmarshal(xs, 0) {
                Ok((count, _)) => {
                    let v = w.number_line(at, Word::Number, Width::Four, u64::from(count), out);
                    items_lines(which, v, xs, count, at, out).to_place(e)
                }
                Err(f) => refusing(f),
            }
        }
        Err(f) => refusing(f),
    }
}

// The walk over a list, which is one field: its count and its items.
pub fn list(w: Walk, which: ListOf, span: Span, src: &[u8], out: &mut [u8]) -> Walk
    ensures { Goes (Items which span ∷ []) src.now (here w out.old) (here result out.new) }
{
    if w.mode == JUDGE {
        if w.at <= FAR {
            return judged(judge_list(which, span, src, w.at));
        }
        return w;
    }
    if w.mode == PUT {
        return putting(put_part(span, src, out, w.at));
    }
    if w.mode == LINES {
        return list_lines(w, which, span, src, out);
    }
    if w.mode == LIST {
        return finding(span);
    }
    w.sought(span)
}
