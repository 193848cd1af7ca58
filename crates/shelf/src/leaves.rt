//! Leaf numbers of strips, written into a work area and settled there: what taking, joining and cutting share.
ghost use Rattle.std.specs.Prelude.{◌≡◌, ◌+◌, ◌≤◌, length};
ghost use Rattle.book.specs.Calls.{settling};
ghost use Rattle.recompression.specs.Contents.{rows_in};
ghost use Rattle.recompression.specs.Expansions.{written_out};
ghost use Rattle.recompression.specs.Settlements.{all_rounds};
ghost use Rattle.rows.specs.Filing.{row_of};
ghost use Rattle.shelf.specs.Refusals.{StripFiled};

use crate::Refusal;
use recompression::Table;

// The number of a string of leaf numbers, which gets its rows.
pub(crate) fn settle_leaves(table: &mut Table, numbers: &mut [u16]) -> Result<u16, Refusal>
    requires { length numbers.old ≤ 65535 }
    ensures { StripFiled result (rows_in table.new) (settling (rows_in table.old) (all_rounds (rows_in table.old) numbers.old)) }
{
    match table.settle(numbers) {
        Ok(reached) => Ok(reached.number),
        // So short a string is refused for want of rows alone.
        Err(_) => Err(Refusal::ShelfFull),
    }
}

// Writes the leaf numbers of a part of a strip that is known to have it.
pub(crate) fn expand_part(table: &Table, number: u16, start: usize, out: &mut [u16])
    requires { start + length out.old ≤ (row_of (rows_in table.now) number).length }
    ensures { out.new ≡ written_out (rows_in table.now) number start (length out.old) }
{
    table.expand(number, start, out).unwrap();
}
