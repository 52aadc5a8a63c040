// The files of data/, by what they hold and their number.
ghost use Rattle.std.specs.Prelude.{◌≤◌, IfOk, length};

use std::io::{Cursor, Read, Write};
use std::rt::Files;
use std::{fs, io};

// No name is longer.
const LONGEST_NAME: usize = 21;

// Opens the file whose name is a number of three digits between a start and an ending. The name has room of its own: a String would
// rest the program on C's allocator too.
pub(crate) fn open<R: Files>(
    rt: &R,
    start: &str,
    number: u64,
    ending: &str,
) -> io::Result<R::File> {
    let mut name = Cursor::new([0u8; LONGEST_NAME]);
    write!(name, "{start}{number:03}{ending}")?;
    let written = name.get_ref().get(..name.position() as usize);
    match written.and_then(|bytes| str::from_utf8(bytes).ok()) {
        Some(path) => fs::open(rt, path),
        None => Err(io::Error::from(io::ErrorKind::InvalidFilename)),
    }
}

// Reads what a file holds, and no more than there is room for.
pub(crate) fn read<'r>(file: &mut impl Read, room: &'r mut [u8]) -> io::Result<&'r [u8]>
    ensures { IfOk result (λ bytes. length bytes.now ≤ length room.old) }
{
    let count = input::read_full(file, room)?;
    Ok(&room[..count])
}
