// From a file's bytes to the sheet's bytes, as one call.
#![tactic(auto)]

mod lines;
mod sheet;

ghost use Rattle.std.specs.Prelude.{◌≤◌, length};
ghost use Rattle.report.specs.Promise.{Reports};
ghost use Rattle.report.specs.Sheet.{sheet_by};
ghost use Rattle.loading.specs.Paper.{default_reading};

use hydrostatics::{MOST_ROWS, ROW_WIDTH};
use loading::Reading;
use ranges::{Reason, Refusal};

// The most bytes of a field, which is a space, a minus and twenty digits, and of a condition's word.
const MOST_FIELD: usize = 22;

const MOST_WORD: usize = 8;

// The most bytes of an R line, and of a C line: eight numbers, the word and the mark of a pass.
const MOST_ROW_LINE: usize = 1 + ROW_WIDTH * MOST_FIELD + 1;

const MOST_CONDITION_LINE: usize = 1 + 8 * MOST_FIELD + 1 + MOST_WORD + MOST_FIELD + 1;

// No sheet is longer: room of this size is never too short.
pub const LONGEST_SHEET: usize = MOST_ROWS * MOST_ROW_LINE + MOST_CONDITION_LINE;

// Makes the sheet of a file's text by a reading of KM, puts its lines into the lent room, where they fit, and answers how many
// bytes they take.
pub fn make_report_by(reading: Reading, text: &[u8], room: &mut [u8]) -> Result<usize, Refusal>
    ensures reports { Reports reading text.now room.old room.new result }
    ensures longest { length (sheet_by reading text.now) ≤ LONGEST_SHEET }
{
    // Room that holds any sheet takes the lines as they are made.
    if LONGEST_SHEET <= room.len() {
        return Ok(sheet::put_sheet(reading, text, room));
    }
    make_apart(reading, text, room)
}

// The same by the default reading.
pub fn make_report(text: &[u8], room: &mut [u8]) -> Result<usize, Refusal>
    ensures reports { Reports default_reading text.now room.old room.new result }
    ensures longest { length (sheet_by default_reading text.now) ≤ LONGEST_SHEET }
{
    make_report_by(Reading::DEFAULT, text, room)
}

// The sheet by lines of its own, which are copied where they fit: an array, since nothing is allocated. Why this and the writer's are
// two, `write_apart` says.
fn make_apart(reading: Reading, text: &[u8], room: &mut [u8]) -> Result<usize, Refusal>
    ensures reports { Reports reading text.now room.old room.new result }
    ensures longest { length (sheet_by reading text.now) ≤ LONGEST_SHEET }
{
    let mut lines = [0u8; LONGEST_SHEET];
    let length = sheet::put_sheet(reading, text, &mut lines);
    if room.len() < length {
        return Err(Reason::RoomTooShort.at(length));
    }
    room[..length].copy_from_slice(&lines[..length]);
    Ok(length)
}
