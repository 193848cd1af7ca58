//! The commands of a job.

ghost use Rattle.std.specs.Prelude.{◌≡◌, ◌+◌, ◌*◌, ◌++◌, List, ℕ, Some, IfSome};
ghost use Rattle.job.specs.Commands.{seen, command_at, cut_at, places_at, spelling};

use periodicity::Fragment;

/// One letter and its operands.
#[derive(Clone, Copy)]
pub enum Command {
    /// C: a glyph is put on the tray.
    Glyph {
        number: u16,
    },
    /// T: the tray is taken onto the shelf, and emptied.
    Take,
    /// J: the strips of two numbers are joined.
    Join {
        left: u16,
        right: u16,
    },
    /// K: a part of a number's strip is cut out.
    Cut {
        number: u16,
        part: Fragment,
    },
    /// F: the places of a pattern in a field of a number's strip are asked for.
    Places {
        number: u16,
        pattern: Fragment,
        field: Fragment,
    },
}

// A number of two bytes.
fn operand(high: u8, low: u8) -> u16
    ensures { result ≡ 256 * high + low }
{
    u16::from_be_bytes([high, low])
}

// A start and a length.
fn fragment(start: u16, length: u16) -> Fragment
    ensures { result ≡ record { start = start; length = length } }
{
    Fragment {
        start: usize::from(start),
        length: usize::from(length),
    }
}

// The operands of K at the front of some bytes, and the bytes after them.
#[tactic(auto, using(crate::proofs::Letters::operands))]
fn cut_operands(bytes: &[u8]) -> Option<(Command, &[u8])>
    ensures { seen result ≡ cut_at bytes.now }
{
    let [
        number_high,
        number_low,
        start_high,
        start_low,
        length_high,
        length_low,
        rest @ ..,
    ] = bytes
    else {
        return None;
    };
    let number = operand(*number_high, *number_low);
    let start = operand(*start_high, *start_low);
    let length = operand(*length_high, *length_low);
    let part = fragment(start, length);
    Some((Command::Cut { number, part }, rest))
}

// The operands of F at the front of some bytes, and the bytes after them.
#[tactic(auto, using(crate::proofs::Letters::operands))]
fn places_operands(bytes: &[u8]) -> Option<(Command, &[u8])>
    ensures { seen result ≡ places_at bytes.now }
{
    let [
        number_high,
        number_low,
        pattern_start_high,
        pattern_start_low,
        pattern_length_high,
        pattern_length_low,
        field_start_high,
        field_start_low,
        field_length_high,
        field_length_low,
        rest @ ..,
    ] = bytes
    else {
        return None;
    };
    let number = operand(*number_high, *number_low);
    let pattern = fragment(
        operand(*pattern_start_high, *pattern_start_low),
        operand(*pattern_length_high, *pattern_length_low),
    );
    let field = fragment(
        operand(*field_start_high, *field_start_low),
        operand(*field_length_high, *field_length_low),
    );
    Some((
        Command::Places {
            number,
            pattern,
            field,
        },
        rest,
    ))
}

// The command at the front of some bytes.
#[tactic(auto, using(crate::proofs::Letters::readings))]
fn at_front(bytes: &[u8]) -> Option<(Command, &[u8])>
    ensures { seen result ≡ command_at bytes.now }
{
    match bytes {
        [b'C', high, low, rest @ ..] => {
            let number = operand(*high, *low);
            Some((Command::Glyph { number }, rest))
        }
        [b'T', rest @ ..] => Some((Command::Take, rest)),
        [b'J', left_high, left_low, right_high, right_low, rest @ ..] => {
            let left = operand(*left_high, *left_low);
            let right = operand(*right_high, *right_low);
            Some((Command::Join { left, right }, rest))
        }
        [b'K', operands @ ..] => cut_operands(operands),
        [b'F', operands @ ..] => places_operands(operands),
        _ => None,
    }
}

impl Command {
    /// The command at the front of some bytes, and the bytes after it; none when the letter is unknown or the
    /// command is cut short. Bytes `54 43 00 05`, base 16, give T with `43 00 05` after it.
    pub fn read(bytes: &[u8]) -> Option<(Command, &[u8])>
        ensures value { seen result ≡ command_at bytes.now }
        ensures spelled { IfSome (seen result) (λ read. bytes.now ≡ spelling read.0 ++ read.1) }
        ensures only { (command : Command) (rest : List ℕ) → bytes.now ≡ spelling command ++ rest → seen result ≡ Some (command, rest) }
    {
        at_front(bytes)
    }
}
