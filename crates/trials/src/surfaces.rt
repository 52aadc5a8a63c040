// A case of a hopper tank's free surface: the counts of widths to port and to starboard with the widths, the interval and the density; and its answer, a line.
use crate::calls::{self, Call, Lines};
use crate::text::{ROOM, Text};
use hoppers::FreeSurface;
use std::fmt;
use std::fmt::Write;

pub(crate) struct Surfaces;

impl Call for Surfaces {
    const START: &'static str = "hopper-";

    const DIFFERING: &'static str = "hopper surfaces that differ ";

    const FEWEST: u64 = 52;

    fn compare(given: &mut Text, answer: &mut Text) -> Option<()> {
        let mut port = [0u64; ROOM];
        let mut starboard = [0u64; ROOM];
        let port = given.table(&mut port)?;
        let starboard = given.table(&mut starboard)?;
        let interval = given.number()?;
        let density = given.next()?;
        given.line_end()?;
        let made = hoppers::surface_of(port, starboard, interval, density);
        calls::write_answer(answer, made).ok()
    }
}

// The line of a surface: A, its inertia and its moment.
impl Lines for FreeSurface {
    fn write(self, answer: &mut Text) -> fmt::Result {
        writeln!(answer, "A {} {}", self.inertia, self.moment)
    }
}
