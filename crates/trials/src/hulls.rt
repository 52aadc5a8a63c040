// The hulls of the offset files of data/: the rows of each by sections beside its rows by waterplanes.
use crate::barges::{Barge, Room};
use crate::trying::{self, Trial};
use crate::{data, files};
use loading::Reading;
use std::io;
use std::rt::Files;

// There are no fewer than these, so that a lost one is noticed.
const FEWEST: u64 = 101;

// Prints which hulls the two differ on and how many, and where some are lost.
pub(crate) fn try_all(rt: &(impl Files + Print)) -> io::Result<()> {
    let count = trying::try_each(rt, |number| trial_at(rt, number))?;
    println!(rt; "hulls whose rows by sections differ {}", count.differing)?;
    trying::print_lost(rt, "hulls", count.tried, FEWEST)
}

// Whether the two differ on the hull of a file, where there is one and it is read.
fn trial_at(rt: &impl Files, number: u64) -> io::Result<Option<Trial>> {
    let Ok(mut file) = files::open_offsets(rt, Reading::Lesser, number) else {
        return Ok(None);
    };
    let mut text = [0u8; input::LONGEST_INPUT];
    let text = data::read(&mut file, &mut text)?;
    let mut room = Room::new();
    let barge = room.read(text);
    Ok(barge.map(|barge| Trial::beside_answer(!rows_agree(barge))))
}

// Whether both calculations answer alike, and leave the same in room for the rows of any hull.
fn rows_agree(barge: Barge) -> bool {
    let mut by_waterplanes = [0u64; hydrostatics::ROW_ROOM];
    let mut by_sections = [0u64; hydrostatics::ROW_ROOM];
    let one = hydrostatics::make_rows(barge.half_breadths, barge.particulars, &mut by_waterplanes);
    let other = hydrostatics::make_rows_by_sections(
        barge.half_breadths,
        barge.particulars,
        &mut by_sections,
    );
    one == other && by_waterplanes == by_sections
}
