// The lines of an item, by its list.
ghost use Rattle.std.specs.Prelude.{◌≡◌, ◌≤◌, ◌+◌};
ghost use Rattle.wire.specs.Lines.{lines};
ghost use Rattle.format.specs.Kinds.{item_layout};
ghost use Rattle.steps.specs.Walks.{here, put_lines};
ghost use Rattle.items.specs.Items.{HasParts, ItemLined};

use crate::tpms::{
    TpmsActData, TpmsAlgProperty, TpmsPcrSelection, TpmsTaggedPolicy, TpmsTaggedProperty,
};
use ciphers::tpmu::TpmuHa;
use codes::TpmEccCurve;
use format::list::ListOf;
use steps::walk::{Walk, refusing};
use text::line::Word;
use wire::number::Number;
use wire::unmarshal::TpmUnmarshal;
use wire::width::Width;

// What a list may hold.
trait Item: TpmUnmarshal {
    // Its lines, once it was read from xs at `at`; the list stands at `place`.
    fn lines(self, w: Walk, xs: &[u8], at: usize, place: usize, out: &mut [u8]) -> Walk
        requires near { (place ≤ 0x10000) × (at ≤ 0x10000) }
        requires is_read { HasParts Self.layout (Self.parts self) xs.now at }
        ensures { here result out.new ≡ put_lines (lines Self.layout (Self.parts self) xs.now (place + at)) (here w out.old) };
}

impl Item for u32 {
    fn lines(self, w: Walk, xs: &[u8], at: usize, place: usize, out: &mut [u8]) -> Walk {
        w.number_line(place + at, Word::Number, Width::Four, self.number(), out)
    }
}

impl Item for TpmEccCurve {
    fn lines(self, w: Walk, xs: &[u8], at: usize, place: usize, out: &mut [u8]) -> Walk {
        w.number_line(place + at, Word::Code, Width::Two, self.number(), out)
    }
}

impl Item for TpmsPcrSelection {
    fn lines(self, w: Walk, xs: &[u8], at: usize, place: usize, out: &mut [u8]) -> Walk {
        let start = place + at;
        let size = start + 2;
        let body = size + 1;
        let bits = self.pcr_select;
        let v = w.number_line(start, Word::Code, Width::Two, self.hash.number(), out);
        let u = v.number_line(size, Word::Number, Width::One, bits.len() as u64, out);
        u.bytes_line(body, bits, xs, out)
    }
}

impl Item for TpmsAlgProperty {
    fn lines(self, w: Walk, xs: &[u8], at: usize, place: usize, out: &mut [u8]) -> Walk {
        let start = place + at;
        let properties = self.alg_properties.number();
        let v = w.number_line(start, Word::Code, Width::Two, self.alg.number(), out);
        v.number_line(start + 2, Word::Number, Width::Four, properties, out)
    }
}

impl Item for TpmsTaggedProperty {
    fn lines(self, w: Walk, xs: &[u8], at: usize, place: usize, out: &mut [u8]) -> Walk {
        let start = place + at;
        let value = self.value.number();
        let v = w.number_line(
            start,
            Word::Number,
            Width::Four,
            self.property.number(),
            out,
        );
        v.number_line(start + 4, Word::Number, Width::Four, value, out)
    }
}

impl Item for TpmsTaggedPolicy {
    fn lines(self, w: Walk, xs: &[u8], at: usize, place: usize, out: &mut [u8]) -> Walk {
        let start = place + at;
        let hash = start + 4;
        let body = hash + 2;
        let policy = self.policy_hash;
        let v = w.number_line(start, Word::Number, Width::Four, self.handle.number(), out);
        let u = v.number_line(hash, Word::Code, Width::Two, policy.hash_alg.number(), out);
        match policy.digest {
            TpmuHa::Null => u,
            TpmuHa::Digest(d) => u.bytes_line(body, d, xs, out),
        }
    }
}

impl Item for TpmsActData {
    fn lines(self, w: Walk, xs: &[u8], at: usize, place: usize, out: &mut [u8]) -> Walk {
        let start = place + at;
        let timeout = start + 4;
        let attributes = timeout + 4;
        let v = w.number_line(start, Word::Number, Width::Four, self.handle.number(), out);
        let u = v.number_line(
            timeout,
            Word::Number,
            Width::Four,
            self.timeout.number(),
            out,
        );
        u.number_line(
            attributes,
            Word::Number,
            Width::Four,
            self.attributes.number(),
            out,
        )
    }
}

// The lines of an item that has yet to be read.
fn read_lines<T: Item>(w: Walk, xs: &[u8], at: usize, place: usize, out: &mut [u8]) -> (Walk, usize)
    requires { (place ≤ 0x10000) × (at ≤ 0x10000) }
    ensures { ItemLined T.layout xs.now at place (here w out.old) (here result.0 out.new) result.1 }
{
    match T::unmarshal(xs, at) {
        Ok((x, end)) => (x.lines(w, xs, at, place, out), end),
        Err(f) => (refusing(f), at),
    }
}

// The lines of the item of xs that stands at `at`, and where it ends; the list stands at `place`.
pub fn item_lines(
    which: ListOf,
    w: Walk,
    xs: &[u8],
    at: usize,
    place: usize,
    out: &mut [u8],
) -> (Walk, usize)
    requires { (place ≤ 0x10000) × (at ≤ 0x10000) }
    ensures { ItemLined (item_layout which) xs.now at place (here w out.old) (here result.0 out.new) result.1 }
{
    match which {
        ListOf::AlgProperty => read_lines::<TpmsAlgProperty>(w, xs, at, place, out),
        ListOf::Handle | ListOf::Cca | ListOf::Cc => read_lines::<u32>(w, xs, at, place, out),
        ListOf::PcrSelection => read_lines::<TpmsPcrSelection>(w, xs, at, place, out),
        ListOf::TaggedTpmProperty => read_lines::<TpmsTaggedProperty>(w, xs, at, place, out),
        ListOf::EccCurve => read_lines::<TpmEccCurve>(w, xs, at, place, out),
        ListOf::TaggedPolicy => read_lines::<TpmsTaggedPolicy>(w, xs, at, place, out),
        ListOf::ActData => read_lines::<TpmsActData>(w, xs, at, place, out),
    }
}
