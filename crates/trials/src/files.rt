// The offset files of data/: every NNN.txt with the answer NNN.out beside it, and every straight-line-NNN.txt with its own. Below 900 an independent calculation's, from 900 on the papers' own figures and rules.
use crate::barges::Room;
use crate::data;
use crate::trying::{self, Trial};
use loading::Reading;
use ranges::Refusal;
use std::io;
use std::rt::Files;

// There are no fewer than these, so that a lost one is noticed.
const FEWEST: u64 = 153;

// The same of those by the straight line.
const FEWEST_BY_STRAIGHT_LINE: u64 = 72;

// Tries the files of the lesser KM, which is the default, then those of the straight line.
pub(crate) fn try_all(rt: &(impl Files + Print)) -> io::Result<()> {
    try_by(rt, Reading::Lesser, FEWEST, "sheets that differ ")?;
    try_by(
        rt,
        Reading::StraightLine,
        FEWEST_BY_STRAIGHT_LINE,
        "sheets by the straight line that differ ",
    )
}

// Prints which files of a reading fail and how many, after a name, and where some are lost.
fn try_by(rt: &(impl Files + Print), reading: Reading, fewest: u64, name: &str) -> io::Result<()> {
    let count = trying::try_each(rt, |number| trial_at(rt, reading, number))?;
    println!(rt; "{name}{}", count.differing)?;
    println!(rt;
        "files changed when written and read again {}",
        count.changed
    )?;
    trying::print_lost(rt, "files", count.tried, fewest)
}

// How the names of a reading's files begin.
fn start_of(reading: Reading) -> &'static str {
    match reading {
        Reading::Lesser => "",
        Reading::StraightLine => "straight-line-",
    }
}

// Opens the file of offsets of this number.
pub(crate) fn open_offsets<R: Files>(rt: &R, reading: Reading, number: u64) -> io::Result<R::File> {
    data::open(rt, start_of(reading), number, ".txt")
}

// A file fails where its sheet differs, or it is read and does not come back alike.
fn trial_at(rt: &impl Files, reading: Reading, number: u64) -> io::Result<Option<Trial>> {
    let Ok(mut file) = open_offsets(rt, reading, number) else {
        return Ok(None);
    };
    let mut text = [0u8; input::LONGEST_INPUT];
    let text = data::read(&mut file, &mut text)?;
    // Closed before the answer is opened: no two files are open at a time.
    drop(file);
    let differs = !is_answer(rt, reading, number, text)?;
    let mut room = Room::new();
    let changed = room.read(text).is_some_and(|barge| !barge.comes_back());
    Ok(Some(Trial { differs, changed }))
}

// Makes a sheet: by the default without a name.
fn make_sheet(reading: Reading, text: &[u8], lines: &mut [u8]) -> Result<usize, Refusal> {
    match reading {
        Reading::Lesser => report::make_report(text, lines),
        Reading::StraightLine => report::make_report_by(reading, text, lines),
    }
}

// Whether the sheet of a file's text is the answer that stands beside it.
fn is_answer(rt: &impl Files, reading: Reading, number: u64, text: &[u8]) -> io::Result<bool> {
    let mut file = data::open(rt, start_of(reading), number, ".out")?;
    let mut answer = [0u8; report::LONGEST_SHEET];
    let answer = data::read(&mut file, &mut answer)?;
    let mut lines = [0u8; report::LONGEST_SHEET];
    match make_sheet(reading, text, &mut lines) {
        Err(_) => Ok(false),
        Ok(count) => Ok(lines.get(..count) == Some(answer)),
    }
}
