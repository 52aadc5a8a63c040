// The reader and the writer, under their names in C.
ghost use Rattle.std.specs.Prelude.{length, ◌≡◌, map, pos};
ghost use Rattle.offsets.specs.Reader.{ReadInto, reader_of, summarised};
ghost use Rattle.ranges.specs.Outside.{particulars_of};
ghost use Rattle.rugulosca.specs.Told.{Tells, summary_numbers};
ghost use Rattle.writer.specs.Writer.{writer_of, length_of, room_after};

use ranges::PARTICULAR_COUNT;
use rugulosca::files::SUMMARY_COUNT;

// Reads a file into the lent tables: its five particulars and its counts of items and of tanks.
#[unsafe(no_mangle)]
pub extern "C" fn rugulosca_read(
    text: &[u8],
    half_breadths: &mut [u64],
    items: &mut [i64],
    tanks: &mut [i64],
    summary: &mut [u64; SUMMARY_COUNT],
    place: &mut usize,
) -> u64
    ensures tells { Tells summary_numbers (summarised (reader_of text.now (length half_breadths.old) (length items.old) (length tanks.old))) summary.old summary.new place.old place.new result }
    ensures read_into { ReadInto (reader_of text.now (length half_breadths.old) (length items.old) (length tanks.old)) half_breadths.old half_breadths.new items.old items.new tanks.old tanks.new }
{
    rugulosca::files::rugulosca_read(text, half_breadths, items, tanks, summary, place)
}

// Writes a file into the lent room, and how many bytes it takes.
#[unsafe(no_mangle)]
pub extern "C" fn rugulosca_write(
    particulars: &[u64; PARTICULAR_COUNT],
    half_breadths: &[u64],
    items: &[i64],
    tanks: &[i64],
    room: &mut [u8],
    count: &mut usize,
    place: &mut usize,
) -> u64
    ensures tells { Tells (λ n. n) (length_of (writer_of (particulars_of (map pos particulars.now)) half_breadths.now items.now tanks.now (length room.old))) count.old count.new place.old place.new result }
    ensures room_after { room.new ≡ room_after (writer_of (particulars_of (map pos particulars.now)) half_breadths.now items.now tanks.now (length room.old)) room.old }
{
    rugulosca::files::rugulosca_write(particulars, half_breadths, items, tanks, room, count, place)
}
