//! Days: the kind of cell that is one day of a calendar, with a mark and a note.
ghost use Rattle.std.specs.Prelude.{◌≡◌, ◌/◌, ◌%◌};
ghost use Rattle.cells.specs.Days.{blank_day, day_code, day_known, spelled_day};
ghost use Rattle.std.proofs.Common.{rules};

use crate::CellKind;

// The last day of the longest month.
const LAST_DAY: u8 = 31;

// The last day of a week.
const LAST_WEEKDAY: u8 = 7;

// How many marks a code tells apart, in its lowest 8 bits.
const MARKS: u32 = 256;

// How many weekdays a code tells apart, in the 3 bits above the mark: 0, which is none, and those of a week.
const WEEKDAYS: u32 = 8;

/// A day of a calendar. The note never counts: `==` leaves it out, as the kind's rule of sameness does.
#[derive(Clone, Copy)]
#[derive_where(PartialEq, Eq, Debug)]
pub struct Day {
    /// The day of the month, from 1.
    pub day: u8,
    /// The day of the week, from 1 for Monday to 7 for Sunday, as in ISO 8601.
    pub weekday: u8,
    /// A mark, which is part of the code.
    pub mark: u8,
    /// A note, which is not.
    #[derive_where(skip(EqHashOrd))]
    pub note: u8,
}

// The day, the weekday and the mark that a number spells.
fn parts(code: u32) -> (u32, u32, u32)
    ensures { result ≡ (code / 256 / 8, code / 256 % 8, code % 256) }
{
    let date = code / MARKS;
    (date / WEEKDAYS, date % WEEKDAYS, code % MARKS)
}

impl CellKind for Day {
    const NUMBER: u8 = 2;

    // Written out, since a constant cannot call `default`.
    const BLANK: Day = Day {
        day: 0,
        weekday: 0,
        mark: 0,
        note: 0,
    };

    ghost NUMBER = { 2 };

    ghost BLANK = { blank_day };

    // The note never counts.
    ghost same = { λ x y. (x.day ≡ y.day) × (x.weekday ≡ y.weekday) × (x.mark ≡ y.mark) };

    ghost coded = { day_code };

    ghost has = { day_known };

    ghost spelled = { spelled_day };

    ghost reflexive = { Prim.search rules };

    ghost symmetric = { Prim.search rules };

    ghost transitive = { Prim.search rules };

    ghost alike = { Prim.search rules };

    ghost fits = { Prim.search rules };

    ghost known = { Prim.search rules };

    ghost back = { Prim.search rules };

    fn code(&self) -> Option<u32> {
        match (self.day, self.weekday) {
            (1..=LAST_DAY, 1..=LAST_WEEKDAY) => {
                let date = u32::from(self.day) * WEEKDAYS + u32::from(self.weekday);
                Some(date * MARKS + u32::from(self.mark))
            }
            _ => None,
        }
    }

    fn has_code(code: u32) -> bool {
        let (day, weekday, _) = parts(code);
        // Three bits hold no weekday past the last.
        1 <= day && day <= u32::from(LAST_DAY) && 1 <= weekday
    }

    fn spelled(code: u32) -> Day {
        let (day, weekday, mark) = parts(code);
        // A day past 8 bits is spelled as 255, which is no day of a month either.
        Day {
            day: day.min(u32::from(u8::MAX)) as u8,
            weekday: weekday as u8,
            mark: mark as u8,
            note: 0,
        }
    }
}
