// Unions: whether the arm that is held is the one that is chosen.
ghost use Rattle.std.specs.Prelude.{◌≡◌};
ghost use Rattle.wire.specs.Unions.{is_arm};

pub fn is_arm(chosen: Option<u16>, held: u16) -> bool
    ensures { result ≡ is_arm chosen held }
{
    chosen == Some(held)
}
