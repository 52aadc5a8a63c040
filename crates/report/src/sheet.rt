// The lines of a whole sheet: each step puts what it comes to, or the E line where it is refused.
ghost use Rattle.std.specs.Prelude.{◌≤◌, length};
ghost use Rattle.numerals.specs.Pieces.{HasRoom, InFront};
ghost use Rattle.report.specs.Private.Putting.{PutsFew, PutsFile, longest_sheet};
ghost use Rattle.report.specs.Sheet.{sheet_by};

use crate::lines;
use hydrostatics::{ROW_ROOM, ROW_WIDTH};
use loading::Reading;
use numerals::Lines;
use ranges::Refusal;

// Puts the sheet in front of room for any, and answers how many bytes it takes.
pub(crate) fn put_sheet(reading: Reading, text: &[u8], room: &mut [u8]) -> usize
    requires { longest_sheet ≤ length room.old }
    ensures put { InFront (sheet_by reading text.now) room.old room.new result }
    ensures few { length (sheet_by reading text.now) ≤ longest_sheet }
{
    let mut to = Lines::over(room);
    put_lines(reading, text, &mut to);
    to.len()
}

// Puts the lines, the E line last where a step is refused.
fn put_lines(reading: Reading, text: &[u8], to: &mut Lines<'_>)
    requires { HasRoom longest_sheet to.old }
    ensures { PutsFew longest_sheet (sheet_by reading text.now) to.old to.new }
{
    if let Err(refusal) = put_file(reading, text, to) {
        lines::put_refusal(to, refusal);
    }
}

// Puts the R lines and the C line of a file, as far as no step is refused.
fn put_file(reading: Reading, text: &[u8], to: &mut Lines<'_>) -> Result<(), Refusal>
    requires { HasRoom longest_sheet to.old }
    ensures { PutsFile (sheet_by reading text.now) to.old to.new result }
{
    // Arrays and counts beside them, since nothing is allocated. Three products, and no methods of `Summary`, which would ask that its
    // counts are the reader's.
    let mut half_breadths = [0u64; ranges::HALF_BREADTH_ROOM];
    let mut items = [0i64; ranges::ITEM_ROOM];
    let mut tanks = [0i64; ranges::TANK_ROOM];
    let summary = offsets::read_file(text, &mut half_breadths, &mut items, &mut tanks)?;
    let particulars = summary.particulars;
    let points = (particulars.n + 1) * (particulars.m + 1);
    let item_numbers = ranges::ITEM_WIDTH * summary.items;
    let tank_numbers = ranges::TANK_WIDTH * summary.tanks;
    let mut rows = [0u64; ROW_ROOM];
    let count = hydrostatics::make_rows(&half_breadths[..points], particulars, &mut rows)?;
    let made = &rows[..ROW_WIDTH * count];
    lines::put_rows(to, made);
    let condition = loading::condition_by(
        reading,
        &items[..item_numbers],
        &tanks[..tank_numbers],
        made,
    )?;
    lines::put_condition(to, condition);
    Ok(())
}
