// What a union spells behind its selector: read, held against the selector, and walked over.
//
// `unmarshal_tagged` reads the arm that the selector chooses, `matches_tag` says whether the payload is that arm, and `walk_tagged` judges
// that where the arm is due and then goes over what is held. The first two have the names that the Rust crate gives them; its trait
// `TpmUnmarshalTagged` has the first alone.
ghost use Rattle.std.specs.Prelude.{◌≡◌, ℕ, List, Option};
ghost use Rattle.wire.specs.Answers.{answer};
ghost use Rattle.wire.specs.Layout.{Layout};
ghost use Rattle.wire.specs.Records.{Part};
ghost use Rattle.wire.specs.Reading.{read};
ghost use Rattle.wire.specs.Unions.{is_arm, held};
ghost use Rattle.steps.specs.Walks.{here, Walks};

use crate::walk::Walk;
use wire::number::Number;
use wire::read::Read;

pub trait TpmTagged: Copy {
    type Tag: Number;

    // Which arm a selector chooses, if any.
    ghost arm: { ℕ → Option ℕ };

    // Which bytes spell the union behind it.
    ghost layout: { ℕ → Layout };

    // What is kept of them, in wire order.
    ghost parts: { Self → List Part };

    // The lists that it holds.
    ghost lists: { Self → List Part };

    // No walk over it has more steps.
    ghost steps: { ℕ };

    fn unmarshal_tagged(tag: Self::Tag, s: &[u8], at: usize) -> Read<Self>
        ensures { answer parts result ≡ read (layout (Self.Tag.number tag)) s.now at };

    fn matches_tag(self, tag: Self::Tag) -> bool
        ensures { result ≡ is_arm (arm (Self.Tag.number tag)) (held (parts self)) };

    fn walk_tagged(self, tag: Self::Tag, w: Walk, src: &[u8], out: &mut [u8]) -> Walk
        ensures { Walks steps (layout (Self.Tag.number tag)) (parts self) (lists self) src.now (here w out.old) (here result out.new) };
}
