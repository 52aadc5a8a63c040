// The reader: the whole file is read into room of its own first, so that a refusal leaves the lent tables as they were.
ghost use Rattle.std.specs.Prelude.{◌≡◌, ◌++◌, map, ◌≤◌, nat_abs, length, drop};
ghost use Rattle.ranges.specs.Fields.{most, range_of};
ghost use Rattle.ranges.specs.Sizes.{points_of};
ghost use Rattle.offsets.specs.Reader.{Reads};
ghost use Rattle.offsets.specs.Private.Steps.{Parses, Rooms, Sized};

use crate::Summary;
use crate::reading::Cursor;
use ranges::{ITEM_WIDTH, PARTICULAR_COUNT, Particulars, Reason, Record, Refusal, TANK_WIDTH};

// Reads a file's text into the lent tables, which need room for the largest: 1,701 half-breadths, 128 numbers of items, 128 of tanks.
pub fn read_file(
    text: &[u8],
    half_breadths: &mut [u64],
    items: &mut [i64],
    tanks: &mut [i64],
) -> Result<Summary, Refusal>
    ensures { Reads text.now half_breadths.old half_breadths.new items.old items.new tanks.old tanks.new result }
{
    if half_breadths.len() < ranges::HALF_BREADTH_ROOM {
        return Err(Reason::WrongSize.at(Refusal::HALF_BREADTH_TABLE));
    }
    if items.len() < ranges::ITEM_ROOM {
        return Err(Reason::WrongSize.at(Refusal::ITEM_TABLE));
    }
    if tanks.len() < ranges::TANK_ROOM {
        return Err(Reason::WrongSize.at(Refusal::TANK_TABLE));
    }
    if ranges::LONGEST_FILE < text.len() {
        return Err(Reason::FileTooLong.at(ranges::LONGEST_FILE));
    }
    read_sized(text, half_breadths, items, tanks)
}

// The same for tables and a text of the right size.
fn read_sized(
    text: &[u8],
    half_breadths: &mut [u64],
    items: &mut [i64],
    tanks: &mut [i64],
) -> Result<Summary, Refusal>
    requires { Sized text.now half_breadths.old items.old tanks.old }
    ensures { Reads text.now half_breadths.old half_breadths.new items.old items.new tanks.old tanks.new result }
{
    let mut points_read = [0i64; ranges::HALF_BREADTH_ROOM];
    let mut items_read = [0i64; ranges::ITEM_ROOM];
    let mut tanks_read = [0i64; ranges::TANK_ROOM];
    let summary = parse(text, &mut points_read, &mut items_read, &mut tanks_read)?;
    let points = points_of(summary.particulars);
    copy_sizes(&points_read[..points], half_breadths);
    let item_numbers = ITEM_WIDTH * summary.items;
    items[..item_numbers].copy_from_slice(&items_read[..item_numbers]);
    let tank_numbers = TANK_WIDTH * summary.tanks;
    tanks[..tank_numbers].copy_from_slice(&tanks_read[..tank_numbers]);
    Ok(summary)
}

// Reads a whole file into the fronts of three tables.
fn parse(
    text: &[u8],
    half_breadths: &mut [i64],
    items: &mut [i64],
    tanks: &mut [i64],
) -> Result<Summary, Refusal>
    requires { Rooms half_breadths.old items.old tanks.old }
    ensures { Parses text.now half_breadths.new items.new tanks.new result }
{
    let mut cursor = Cursor { text, next: 0 };
    cursor.count(PARTICULAR_COUNT, PARTICULAR_COUNT)?;
    let particulars = cursor.particulars()?;
    let points = points_of(particulars);
    cursor.section(Record::HalfBreadth, points, points, half_breadths)?;
    let item_count = cursor.section(Record::Item, 0, ranges::MOST_ITEMS, items)?;
    let tank_count = cursor.section(Record::Tank, 0, ranges::MOST_TANKS, tanks)?;
    cursor.finish()?;
    Ok(Summary {
        particulars,
        items: item_count,
        tanks: tank_count,
    })
}

// How many half-breadths a hull has: one at each waterline of each station. A method of `Particulars` would ask of hydrostatics, writer
// and report that n and m are in range, to save them one product.
fn points_of(hull: Particulars) -> usize
    requires { (hull.n ≤ most (range_of 0)) × (hull.m ≤ most (range_of 1)) }
    ensures { result ≡ points_of hull.n hull.m }
{
    (hull.n + 1) * (hull.m + 1)
}

// Puts the sizes of a table's numbers into the front of another.
fn copy_sizes(table: &[i64], to: &mut [u64])
    requires { length table.now ≤ length to.old }
    ensures { to.new ≡ map nat_abs table.now ++ drop (length table.now) to.old }
{
    for (i, number) in table.iter().enumerate() {
        to[i] = arithmetic::magnitude(*number);
    }
}
