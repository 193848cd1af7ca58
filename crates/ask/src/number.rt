//! Numbers as words write them.

ghost use Rattle.std.specs.Prelude.{◌≡◌, ◌^◌};
ghost use Rattle.ask.specs.Numbers.{number_below};

// The number that a word of digits writes; absent when the word is empty, has another byte or does not fit. Digit by
// digit, in one pass: the library parses a text, so that a word would be gone over three times.
pub(crate) fn number(word: &[u8]) -> Option<usize>
    ensures { result ≡ number_below (2 ^ 64) word.now }
{
    if word.is_empty() {
        return None;
    }
    let mut value: usize = 0;
    for byte in word {
        if !byte.is_ascii_digit() {
            return None;
        }
        value = value
            .checked_mul(10)?
            .checked_add(usize::from(*byte - b'0'))?;
    }
    Some(value)
}

// The same of a code.
#[tactic(auto, using(crate::proofs::Decimals::narrowing))]
pub(crate) fn code(word: &[u8]) -> Option<u32>
    ensures { result ≡ number_below (2 ^ 32) word.now }
{
    u32::try_from(number(word)?).ok()
}
