//! Which cell of a list is the first that cannot be printed.
ghost use Rattle.std.specs.Prelude.{◌≡◌};
ghost use Rattle.cells.specs.Printing.{first_unprintable, FoundFirst};

use crate::CellKind;

/// The place, counted from 0, of the first cell that is not printable, or `None` where every cell is printable.
#[tactic(auto, using(crate::proofs::Firsts::front_none, crate::proofs::Firsts::front_more))]
pub fn first_unprintable<K: CellKind>(cells: &[K]) -> Option<usize>
    ensures computed { result ≡ first_unprintable K.coded cells.now }
    ensures found { FoundFirst K.coded cells.now result }
{
    for (i, cell) in cells.iter().enumerate() {
        if cell.code().is_none() {
            return Some(i);
        }
    }
    None
}
