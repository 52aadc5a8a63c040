// The printing program: a file's text on standard input, its sheet on standard output. A word on the command line names the
// reading of KM.
#![tactic(auto)]

mod names;

use loading::Reading;
use std::io;
use std::io::Read;

// Prints the sheet of what is read. Text and lines have rooms of their own: a Vec would rest the program on C's allocator too.
fn print_sheet(rt: &impl Print, input: &mut impl Read, reading: Reading) -> io::Result<()> {
    let mut text = [0u8; input::LONGEST_INPUT];
    let count = input::read_full(input, &mut text)?;
    let mut lines = [0u8; report::LONGEST_SHEET];
    // The room holds every sheet, so it is never refused as too short.
    if let Ok(length) = report::make_report_by(reading, &text[..count], &mut lines) {
        rt.write_all(&lines[..length])?;
    }
    Ok(())
}

// Says which words there are, where those given are others.
fn print_usage(rt: &impl Eprint) -> io::Result<()> {
    eprintln!(rt;
        "sheet: not understood. Give no word, or one: lesser or straight-line, for how KM is read between two rows."
    )
}

fn main(rt: HostRuntime) -> io::Result<()> {
    match names::asked(&rt) {
        Some(reading) => print_sheet(&rt, &mut rt.stdin(), reading),
        None => print_usage(&rt),
    }
}
