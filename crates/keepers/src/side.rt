//! The two sides of a place.

ghost use Rattle.std.specs.Prelude.{◌≡◌, ◌≤◌};
ghost use Rattle.keepers.specs.Sides.{turned, room_on};

/// On which side of two places codes are compared.
#[derive(Clone, Copy, PartialEq, Eq, Debug)]
pub enum Side {
    /// From the places on.
    Ahead,
    /// Just before the places, going back.
    Behind,
}

impl Side {
    // The side that it is in the same codes backwards.
    pub(crate) fn turned(self) -> Side
        ensures { result ≡ turned self }
    {
        match self {
            Side::Ahead => Side::Behind,
            Side::Behind => Side::Ahead,
        }
    }

    // How many codes at the most agree on this side of two places of a list.
    pub(crate) fn room(self, len: usize, i: usize, j: usize) -> usize
        requires { (i ≤ len) × (j ≤ len) }
        ensures { result ≡ room_on self len i j }
    {
        match self {
            Side::Ahead => len - i.max(j),
            Side::Behind => i.min(j),
        }
    }
}
