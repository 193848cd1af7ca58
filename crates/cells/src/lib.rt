//! Kinds of cells.
//!
//! A strip is a list of cells, and its kind says what a cell is. A kind has a number, a blank cell, and a rule
//! of its own by which two cells are the same. Some of its cells can be printed. Each of those has a code, by
//! which strips are kept and compared, and from a code the kind gives a cell back. A kind keeps three laws:
//!
//! 1. Sameness is an equivalence: every cell is the same as itself, it does not matter which of two cells is
//!    named first, and two cells that are both the same as a third are the same.
//! 2. Codes tell cells apart just as the kind does: two printable cells are the same exactly when their codes
//!    are equal. Every code is below 2^32.
//! 3. Codes lead back to cells: the kind has the code of every printable cell, and the cell that it gives back
//!    for a code that it has is printable and has that code. For any other code it gives back the blank.
//!
//! The kind says which number spells which cell. That a cell is given back for its codes alone, and the blank for every
//! other number, is said once, by the trait.
//!
//! There are two kinds: glyphs, which are the same when they are equal, and days, whose notes do not count.
#![tactic(auto)]

mod day;
mod glyph;
mod printing;

ghost use Rattle.std.specs.Prelude.{◌≡◌, ℕ, ◌^◌, ◌<◌, Bool, true, false, ◌↔◌, Some, Option};
ghost use Rattle.cells.specs.Giving.{given_by};

pub use day::Day;
pub use glyph::Glyph;
pub use printing::first_unprintable;

/// A kind of cell. A new kind gives its number, its blank, its rule of sameness and its codes, and shows that they keep
/// the laws; `cell` is the same for all kinds. Of `Day`, the code of day 31, weekday 7 and mark 2 is
/// (31 · 8 + 7) · 256 + 2 = 65,282, whatever the note; `cell(65_282)` is that day with note 0, and `cell(0)` the blank.
pub trait CellKind: Sized + Drop {
    /// The number of the kind, by which a shelf knows it.
    const NUMBER: u8;

    /// Its blank cell, given back for a code that no cell has.
    const BLANK: Self;

    // The same two, as clauses and laws name them.
    ghost NUMBER: { ℕ };

    ghost BLANK: { Self };

    // The kind's own rule of sameness.
    ghost same: { Self → Self → Type 0 };

    // The code of a printable cell, and `None` for a cell that is not printable.
    ghost coded: { Self → Option ℕ };

    // Whether some printable cell has the code.
    ghost has: { ℕ → Bool };

    // The cell that a number spells. Of a number that is no code it is some cell, of which no law speaks.
    ghost spelled: { ℕ → Self };

    /// The cell's code, or `None` where it is not printable.
    fn code(&self) -> Option<u32>
        ensures { result ≡ coded self.now };

    /// Whether some printable cell has the code. `cell` does not tell that: it gives the blank back for every other
    /// code, and a kind's blank may be printable.
    fn has_code(code: u32) -> bool
        ensures { result ≡ has code };

    /// The cell that a number spells, whether or not it is a code: `cell` asks that.
    fn spelled(code: u32) -> Self
        ensures { result ≡ spelled code };

    /// The printable cell that has the code, or the blank where none has it. No kind says this otherwise.
    final fn cell(code: u32) -> Self
        ensures given { result ≡ given_by has spelled BLANK code }
        ensures back { has code ≡ true → coded result ≡ Some code }
        ensures otherwise { has code ≡ false → result ≡ BLANK }
    {
        if Self::has_code(code) {
            Self::spelled(code)
        } else {
            Self::BLANK
        }
    }

    // Sameness is an equivalence.
    ghost reflexive: { (x : Self) → same x x };

    ghost symmetric: { (x y : Self) → same x y → same y x };

    ghost transitive: { (x y z : Self) → same x y → same y z → same x z };

    // Two printable cells are the same exactly when their codes are equal.
    ghost alike: { (x y : Self) (m n : ℕ) → coded x ≡ Some m → coded y ≡ Some n → same x y ↔ (m ≡ n) };

    // A code fits 32 bits.
    ghost fits: { (x : Self) (n : ℕ) → coded x ≡ Some n → n < 2 ^ 32 };

    // The kind has the code of every printable cell.
    ghost known: { (x : Self) (n : ℕ) → coded x ≡ Some n → has n ≡ true };

    // The cell given back for a code that the kind has is printable, and has that code.
    ghost back: { (n : ℕ) → has n ≡ true → coded (given_by has spelled BLANK n) ≡ Some n };
}
