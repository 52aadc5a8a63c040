// The offset file: reader and writer.
ghost use Rattle.std.specs.Prelude.{◌≡◌, map, pos, length};
ghost use Rattle.ranges.specs.Outside.{particulars_of};
ghost use Rattle.offsets.specs.Reader.{ReadInto, reader_of, summarised};
ghost use Rattle.writer.specs.Writer.{writer_of, length_of, room_after};
ghost use Rattle.rugulosca.specs.Told.{Tells, summary_numbers};

use crate::told::tell;
use offsets::Summary;
use ranges::{PARTICULAR_COUNT, Particulars};

// The particulars, and the counts of items and of tanks.
pub const SUMMARY_COUNT: usize = PARTICULAR_COUNT + 2;

// A summary's numbers.
fn numbers_of(s: Summary) -> [u64; SUMMARY_COUNT]
    ensures { result ≡ summary_numbers s }
{
    let p = s.particulars;
    [
        p.n as u64,
        p.m as u64,
        p.s,
        p.d,
        p.density,
        s.items as u64,
        s.tanks as u64,
    ]
}

// Reads a file into the lent tables: its five particulars and its counts of items and of tanks.
pub fn rugulosca_read(
    text: &[u8],
    half_breadths: &mut [u64],
    items: &mut [i64],
    tanks: &mut [i64],
    summary: &mut [u64; SUMMARY_COUNT],
    place: &mut usize,
) -> u64
    ensures tells { Tells summary_numbers (summarised (reader_of text.now (length half_breadths.old) (length items.old) (length tanks.old))) summary.old summary.new place.old place.new result }
    ensures read_into { ReadInto (reader_of text.now (length half_breadths.old) (length items.old) (length tanks.old)) half_breadths.old half_breadths.new items.old items.new tanks.old tanks.new }
{
    let answer = offsets::read_file(text, half_breadths, items, tanks);
    tell(answer.map(numbers_of), summary, place)
}

// Writes a file into the lent room, and how many bytes it takes.
pub fn rugulosca_write(
    particulars: &[u64; PARTICULAR_COUNT],
    half_breadths: &[u64],
    items: &[i64],
    tanks: &[i64],
    room: &mut [u8],
    count: &mut usize,
    place: &mut usize,
) -> u64
    ensures tells { Tells (λ n. n) (length_of (writer_of (particulars_of (map pos particulars.now)) half_breadths.now items.now tanks.now (length room.old))) count.old count.new place.old place.new result }
    ensures room_after { room.new ≡ room_after (writer_of (particulars_of (map pos particulars.now)) half_breadths.now items.now tanks.now (length room.old)) room.old }
{
    let p = Particulars::from(*particulars);
    let answer = writer::write_file(p, half_breadths, items, tanks, room);
    tell(answer, count, place)
}
