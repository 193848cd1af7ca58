//! Glyphs: the kind of cell that is a number of 16 bits, and always printable.
ghost use Rattle.cells.specs.Glyphs.{blank_glyph, glyph_code, glyph_known, same_glyph, spelled_glyph};
ghost use Rattle.std.proofs.Common.{rules};

use crate::CellKind;

/// A glyph, by its number.
#[derive(Clone, Copy, PartialEq, Eq, Debug)]
pub struct Glyph(pub u16);

impl CellKind for Glyph {
    const NUMBER: u8 = 1;

    const BLANK: Glyph = Glyph(32);

    ghost NUMBER = { 1 };

    ghost BLANK = { blank_glyph };

    ghost same = { same_glyph };

    ghost coded = { glyph_code };

    ghost has = { glyph_known };

    ghost spelled = { spelled_glyph };

    ghost reflexive = { Prim.search rules };

    ghost symmetric = { Prim.search rules };

    ghost transitive = { Prim.search rules };

    ghost alike = { Prim.search rules };

    ghost fits = { Prim.search rules };

    ghost known = { Prim.search rules };

    ghost back = { Prim.search rules };

    fn code(&self) -> Option<u32> {
        Some(u32::from(self.0))
    }

    fn has_code(code: u32) -> bool {
        code <= u32::from(u16::MAX)
    }

    fn spelled(code: u32) -> Glyph {
        // No code of a glyph is past 16 bits; a larger number is spelled as the last glyph.
        Glyph(code.min(u32::from(u16::MAX)) as u16)
    }
}
