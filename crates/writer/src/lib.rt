// The writer. Room that holds any text takes it as it is made; for less, it is put together in an array first, and copied where it fits.
#![tactic(auto)]

mod file;
mod lines;

ghost use Rattle.writer.specs.Writer.{Writes};

use file::File;
use ranges::{Particulars, Refusal};

// The bytes of a text at its longest, each number with what stands after it: four counts, the particulars, a half-breadth, an item, a tank.
const COUNT_BYTES: usize = 13;

const PARTICULAR_BYTES: usize = 20;

const HALF_BREADTH_BYTES: usize = 5;

const ITEM_BYTES: usize = 27;

const TANK_BYTES: usize = 50;

// Room that is never too short.
pub const LONGEST_TEXT: usize = COUNT_BYTES
    + PARTICULAR_BYTES
    + HALF_BREADTH_BYTES * ranges::HALF_BREADTH_ROOM
    + ITEM_BYTES * ranges::MOST_ITEMS
    + TANK_BYTES * ranges::MOST_TANKS;

// Writes a file's text into the lent room and answers its length, or refuses and leaves the room as it was.
pub fn write_file(
    p: Particulars,
    half_breadths: &[u64],
    items: &[i64],
    tanks: &[i64],
    room: &mut [u8],
) -> Result<usize, Refusal>
    ensures { Writes p half_breadths.now items.now tanks.now room.old room.new result }
{
    File::of(p, half_breadths, items, tanks)?.write(room)
}
