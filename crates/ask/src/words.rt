//! The words of a line and the lines of a text, one by one.

ghost use Rattle.std.specs.Prelude.{◌≡◌, length};
ghost use Rattle.std.specs.Iterator.{YieldsFirstRef, at_most};
ghost use Rattle.ask.specs.Words.{words_left, lines_left, is_blank as blank, is_named, FirstWord, FirstLine};

// Blanks part words.
fn is_blank(byte: u8) -> bool
    ensures { result ≡ blank byte }
{
    matches!(byte, b' ' | b'\t' | b'\r')
}

// The first word of a line and what follows it.
fn next_word(line: &[u8]) -> Option<(&[u8], &[u8])>
    ensures { FirstWord line.now result }
{
    let start = line.iter().position(|byte| !is_blank(*byte))?;
    let line = &line[start..];
    let size = line.iter().take_while(|byte| !is_blank(**byte)).count();
    Some(line.split_at(size))
}

// The first line of a text and what follows its newline; the last line may have none.
#[tactic(auto, using(crate::proofs::Pieces::no_line))]
fn next_line(text: &[u8]) -> Option<(&[u8], &[u8])>
    ensures { FirstLine text.now result }
{
    if text.is_empty() {
        return None;
    }
    match text.iter().position(|byte| *byte == b'\n') {
        Some(size) => Some((&text[..size], &text[size + 1..])),
        None => Some((text, &[])),
    }
}

// The words that are left of a line.
#[derive(Clone, Copy)]
pub(crate) struct Words<'a> {
    rest: &'a [u8],
}

impl<'a> Words<'a> {
    pub(crate) fn of(line: &'a [u8]) -> Self
        ensures { result.rest.now ≡ line.now }
    {
        Words { rest: line }
    }
}

impl<'a> Iterator for Words<'a> {
    type Item = &'a [u8];

    ghost next_gives = { YieldsFirstRef words_left };

    ghost remaining = { λ words. at_most (length words.rest.now) };

    fn next(&mut self) -> Option<&'a [u8]> {
        let (word, rest) = next_word(self.rest)?;
        self.rest = rest;
        Some(word)
    }
}

// The lines that are left of a text.
#[derive(Clone, Copy)]
pub(crate) struct Lines<'a> {
    rest: &'a [u8],
}

impl<'a> Lines<'a> {
    pub(crate) fn of(text: &'a [u8]) -> Self
        ensures { result.rest.now ≡ text.now }
    {
        Lines { rest: text }
    }
}

impl<'a> Iterator for Lines<'a> {
    type Item = &'a [u8];

    ghost next_gives = { YieldsFirstRef lines_left };

    ghost remaining = { λ lines. at_most (length lines.rest.now) };

    fn next(&mut self) -> Option<&'a [u8]> {
        let (line, rest) = next_line(self.rest)?;
        self.rest = rest;
        Some(line)
    }
}

// Whether a word has the bytes of a name.
pub(crate) fn spells(word: &[u8], name: &str) -> bool
    ensures { result ≡ is_named word.now name.now }
{
    word == name.as_bytes()
}
