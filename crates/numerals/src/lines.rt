// A text put piece by piece into lent room.
ghost use Rattle.std.specs.Prelude.{◌≡◌, ◌≤◌, ◌∷◌, [], ℤ, pos, length};
ghost use Rattle.numerals.specs.Printed.{printed, Prints, most_printed};

// A number that has a text: a whole one, or one of either sign.
pub trait Printable: Copy {
    ghost value: { Self → ℤ };

    // Puts the number's text at the front of the room, where it fits, and answers the text's length.
    fn print(self, room: &mut [u8]) -> usize
        ensures text { Prints (value self) room.old room.new result }
        ensures few { result ≤ most_printed };
}

impl Printable for u64 {
    ghost value = { pos };

    fn print(self, room: &mut [u8]) -> usize {
        crate::print_whole(self, room)
    }
}

impl Printable for i64 {
    ghost value = { λ v. v };

    fn print(self, room: &mut [u8]) -> usize {
        crate::print(self, room)
    }
}

// Lent room, and how many bytes of it are put. Who knows that there is room need not look at what a put answers. No `Cursor` of std's,
// whose write puts a part where the room is short.
#[derive(Drop)]
pub struct Lines<'a> {
    text: &'a mut [u8],
    at: usize,
    ghost within: { at ≤ length text.now },
}

impl<'a> Lines<'a> {
    ghost use Rattle.numerals.specs.Pieces.{PutsWhereRoom, said_in, room_of};

    // Nothing is put yet.
    pub fn over(text: &'a mut [u8]) -> Lines<'a>
        ensures same_text { result.text.ghost_name ≡ text.entry.ghost_name }
        ensures none { said_in result ≡ [] }
        ensures room { room_of result ≡ text.old }
    {
        Lines { text, at: 0 }
    }

    // How many bytes are put.
    pub fn len(&self) -> usize
        ensures { result ≡ length (said_in self.now) }
    {
        self.text[..self.at].len()
    }

    // Puts a byte where there is room for it, and answers whether it did.
    pub fn put_byte(&mut self, byte: u8) -> bool
        ensures { PutsWhereRoom (byte ∷ []) self.old self.new result }
    {
        if self.at == self.text.len() {
            return false;
        }
        self.text[self.at] = byte;
        self.at += 1;
        true
    }

    // Puts some bytes, all or none.
    pub fn put(&mut self, bytes: &[u8]) -> bool
        ensures { PutsWhereRoom bytes.now self.old self.new result }
    {
        if self.text.len() - self.at < bytes.len() {
            return false;
        }
        let end = self.at + bytes.len();
        self.text[self.at..end].copy_from_slice(bytes);
        self.at = end;
        true
    }

    // Puts a number, whole or not at all: printing leaves room that is too short as it was.
    pub fn put_number<N: Printable>(&mut self, number: N) -> bool
        ensures puts { PutsWhereRoom (printed (N.value number)) self.old self.new result }
        ensures few { length (printed (N.value number)) ≤ most_printed }
    {
        let room = self.text.len() - self.at;
        let count = number.print(&mut self.text[self.at..]);
        if room < count {
            return false;
        }
        self.at += count;
        true
    }
}
