// A text that is read from its front on, and what an answer prints held against it.
ghost use Rattle.std.specs.Prelude.{◌<◌, ◌≤◌, length, IfSome};

use std::fmt;

// No digit is put behind a whole number that is greater.
const GREAT: u64 = 100_000_000_000_000_000;

// Room for more numbers than a table of a call may have.
pub(crate) const ROOM: usize = 160;

// What of a text is still to be read.
#[derive(Clone, Copy)]
pub(crate) struct Text<'a> {
    rest: &'a [u8],
}

impl<'a> Text<'a> {
    pub(crate) fn new(bytes: &'a [u8]) -> Text<'a> {
        Text { rest: bytes }
    }

    pub(crate) fn is_at_end(&self) -> bool {
        self.rest.is_empty()
    }

    // Passes a piece; where something else stands there, nothing is passed.
    pub(crate) fn piece(&mut self, piece: &[u8]) -> Option<()> {
        if !self.rest.starts_with(piece) {
            return None;
        }
        self.rest = &self.rest[piece.len()..];
        Some(())
    }

    // Passes the end of a line.
    pub(crate) fn line_end(&mut self) -> Option<()> {
        self.piece(b"\n")
    }

    // Passes one digit; where something else stands there, nothing is passed.
    fn digit(&mut self) -> Option<u64>
        ensures { IfSome result (λ digit. (digit ≤ 9) × (length self.new.rest.now < length self.old.rest.now)) }
    {
        let (first, rest) = self.rest.split_first()?;
        if !first.is_ascii_digit() {
            return None;
        }
        self.rest = rest;
        Some(u64::from(first - b'0'))
    }

    // Reads a number.
    pub(crate) fn number<N: Number>(&mut self) -> Option<N> {
        N::read(self)
    }

    // Reads the number after a space.
    pub(crate) fn next<N: Number>(&mut self) -> Option<N> {
        self.piece(b" ")?;
        self.number()
    }

    // Reads a line of a count and so many numbers into the room's front. More than there is room for are none.
    pub(crate) fn table<'r, N: Number>(&mut self, room: &'r mut [N]) -> Option<&'r [N]>
        ensures { IfSome result (λ table. length table.now ≤ length room.old) }
    {
        let count = self.number()?;
        let table = room.get_mut(..count)?;
        for number in table.iter_mut() {
            *number = self.next()?;
        }
        self.line_end()?;
        Some(table)
    }
}

// To write to a text is to pass what is written; where something else stands there, that is an error. So an answer is compared as it
// is printed.
impl fmt::Write for Text<'_> {
    fn write_str(&mut self, s: &str) -> fmt::Result {
        self.piece(s.as_bytes()).ok_or(fmt::Error)
    }
}

// A number that a text can hold.
pub(crate) trait Number: Copy {
    // Reads the number at a text's front.
    fn read(text: &mut Text) -> Option<Self>;
}

impl Number for i64 {
    fn read(text: &mut Text) -> Option<i64> {
        let numeral = numerals::numeral_at(text.rest, 0)?;
        text.rest = text.rest.get(numeral.stop..)?;
        Some(numeral.value)
    }
}

// A whole number may have more digits than an offset file's; one that is too great is none. Digit by digit, since `parse` takes
// greater ones.
impl Number for u64 {
    fn read(text: &mut Text) -> Option<u64> {
        let mut value = text.digit()?;
        while let Some(digit) = text.digit() {
            if GREAT < value {
                return None;
            }
            value = 10 * value + digit;
        }
        Some(value)
    }
}

impl Number for usize {
    fn read(text: &mut Text) -> Option<usize> {
        let value: u64 = text.number()?;
        Some(value as usize)
    }
}
