//! The desk at which a job is run: a glyph shelf, the tray and the work area.

ghost use Rattle.std.specs.Prelude.{◌≡◌, true, [], ◌∷◌, IfOk, IfErr, OnOk, OnErr};
ghost use Rattle.job.specs.Commands.{seen, command_at};
ghost use Rattle.job.specs.Runs.{nothing_yet, has_room as has_room_on, fits as fits_on};
ghost use Rattle.job.specs.Lines.{told_in};
ghost use Rattle.shelf.specs.Contents.{kind_of};

use crate::command::Command;
use crate::line::Line;
use cells::Glyph;
use keepers::Keeper;
use periodicity::Fragment;
use questions::{Found, places};
use shelf::Shelf;
use shelf_strip::ShelfStrip;
use std::alloc::{AllocError, Global};

// The most glyphs on the tray.
const MOST_GLYPHS: usize = 8192;

// The places of the work area.
const WORK_PLACES: usize = 8192;

/// A shelf that keeps glyphs, from the first command to the last, the tray and the work area. A command that is
/// refused prints so, and the desk goes on with the next; only putting a glyph on the tray takes memory.
#[derive(Drop)]
pub struct Desk {
    shelf: Shelf,
    tray: Vec<Glyph>,
    work: [u16; WORK_PLACES],
    ghost of_glyphs: { kind_of shelf ≡ 1 },
}

impl Desk {
    ghost use Rattle.job.specs.Desks.{standing_of, doable, told_lines, PutsGlyph, Does};

    /// An empty glyph shelf and an empty tray. The tray's glyphs will lie in `heap`.
    pub fn new(heap: Global) -> Desk
        ensures { standing_of result ≡ nothing_yet }
    {
        Desk {
            shelf: Shelf::new::<Glyph>(),
            tray: Vec::new(heap),
            work: [0; WORK_PLACES],
        }
    }

    // Whether the tray has room for a glyph.
    fn has_room(&self) -> bool
        ensures { result ≡ has_room_on self.now.tray.items }
    {
        self.tray.len() < MOST_GLYPHS
    }

    // Whether a command can be done: a glyph only while the tray has room.
    fn fits(&self, command: Command) -> bool
        ensures { result ≡ fits_on self.now.tray.items command }
    {
        match command {
            Command::Glyph { .. } => self.has_room(),
            _ => true,
        }
    }

    // The command at the front of some bytes, with the bytes after it, unless it cannot be read or done.
    pub(crate) fn next<'a>(&self, bytes: &'a [u8]) -> Option<(Command, &'a [u8])>
        ensures { seen result ≡ doable self.now.tray.items (command_at bytes.now) }
    {
        Command::read(bytes).filter(|(command, _)| self.fits(*command))
    }

    /// Puts a glyph on the tray, and answers whether it had room: a full tray stays as it is. Memory can be
    /// short only where it has; the desk is then as it was.
    pub fn put(&mut self, number: u16) -> Result<bool, AllocError>
        ensures room { IfOk result (λ room. room ≡ has_room_on self.old.tray.items) }
        ensures done { OnOk result (Does (standing_of self.old) (Command.Glyph number) [] (standing_of self.new)) }
        ensures failed { IfErr result (λ _. has_room_on self.old.tray.items ≡ true) }
        ensures kept { OnErr result (standing_of self.new ≡ standing_of self.old) }
    {
        if !self.has_room() {
            return Ok(false);
        }
        self.tray.push(Glyph(number))?;
        Ok(true)
    }

    /// Takes the tray onto the shelf, and empties it, refused or not. A tray is refused where the shelf is full, and
    /// an empty one comes to number 0.
    pub fn take(&mut self) -> Line
        ensures { Does (standing_of self.old) Command.Take (told_in result ∷ []) (standing_of self.new) }
    {
        let answer = self.shelf.take(self.tray.as_slice(), &mut self.work);
        self.tray.clear();
        Line::Take(answer)
    }

    /// Joins the strips of two numbers. Refused where one is unknown, the strip would be too long for a shelf or for
    /// the work area's 8,192 places, or the shelf is full.
    pub fn join(&mut self, left: u16, right: u16) -> Line
        ensures { Does (standing_of self.old) (Command.Join left right) (told_in result ∷ []) (standing_of self.new) }
    {
        Line::Join(self.shelf.join(left, right, &mut self.work))
    }

    /// Cuts a part out of a number's strip. Refused where the number is unknown, the part leaves the strip or has more
    /// cells than the work area places, or the shelf is full.
    pub fn cut(&mut self, number: u16, part: Fragment) -> Line
        ensures { Does (standing_of self.old) (Command.Cut number part) (told_in result ∷ []) (standing_of self.new) }
    {
        Line::Cut(self.shelf.cut(number, part, &mut self.work))
    }

    /// Asks for the places of a pattern in a field of a number's strip, and changes nothing. An unknown number stands
    /// for the empty strip. Refused where a fragment leaves the strip, or the field is at least twice as long as the pattern.
    pub fn find(&self, number: u16, pattern: Fragment, field: Fragment) -> Line
        ensures { Does (standing_of self.now) (Command.Places number pattern field) (told_in result ∷ []) (standing_of self.now) }
    {
        Line::Places(Found(places(&ShelfStrip::new(&self.shelf, number), pattern, field)))
    }

    /// Does a command, and answers the line that it prints, if it prints one: C prints none. Memory can be short for
    /// C alone, on a tray with room, and the desk is then as it was.
    pub fn perform(&mut self, command: Command) -> Result<Option<Line>, AllocError>
        ensures done { IfOk result (λ line. Does (standing_of self.old) command (told_lines line) (standing_of self.new)) }
        ensures failed { IfErr result (λ _. PutsGlyph self.old.tray.items command) }
        ensures kept { OnErr result (standing_of self.new ≡ standing_of self.old) }
    {
        match command {
            Command::Glyph { number } => {
                self.put(number)?;
                Ok(None)
            }
            Command::Take => Ok(Some(self.take())),
            Command::Join { left, right } => Ok(Some(self.join(left, right))),
            Command::Cut { number, part } => Ok(Some(self.cut(number, part))),
            Command::Places {
                number,
                pattern,
                field,
            } => Ok(Some(self.find(number, pattern, field))),
        }
    }
}
