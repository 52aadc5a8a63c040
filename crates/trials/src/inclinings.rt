// A case of an inclining test: its own four numbers; the counts of the shifts' numbers and of the two lists', with the numbers; and the room for GMs. Its answer: each shift's GM and the light ship, or a refusal.
use crate::calls::{self, Call, Lines};
use crate::text::{ROOM, Text};
use inclining::{LightShip, Test};
use std::fmt;
use std::fmt::Write;

pub(crate) struct Inclinings;

// What a test comes to: each shift's GM, and the light ship.
#[derive(Clone, Copy)]
struct Found<'a> {
    gms: &'a [u64],
    ship: LightShip,
}

impl Call for Inclinings {
    const START: &'static str = "inclining-";

    const DIFFERING: &'static str = "inclining tests that differ ";

    const FEWEST: u64 = 52;

    fn compare(given: &mut Text, answer: &mut Text) -> Option<()> {
        let mut shifts = [0u64; ROOM];
        let mut off = [0i64; ROOM];
        let mut on = [0i64; ROOM];
        let mut gms = [0u64; ROOM];
        let test = test_of(given)?;
        let shifts = given.table(&mut shifts)?;
        let off = given.table(&mut off)?;
        let on = given.table(&mut on)?;
        let room = given.number()?;
        given.line_end()?;
        let gms = gms.get_mut(..room)?;
        let made = inclining::light_ship(test, shifts, off, on, gms);
        let count = gms.len().min(shifts.len() / ranges::SHIFT_WIDTH);
        let gms = &gms[..count];
        calls::write_answer(answer, made.map(|ship| Found { gms, ship })).ok()
    }
}

// Reads W, KM, the free surface and the pendulum's length.
fn test_of(given: &mut Text) -> Option<Test> {
    let test = Test {
        weight: given.number()?,
        km: given.next()?,
        free_surface: given.next()?,
        pendulum: given.next()?,
    };
    given.line_end()?;
    Some(test)
}

impl Lines for Found<'_> {
    fn write(self, answer: &mut Text) -> fmt::Result {
        write_gms(answer, self.gms)?;
        write_ship(answer, self.ship)
    }
}

// The line of GMs: G, and each.
fn write_gms(answer: &mut Text, gms: &[u64]) -> fmt::Result {
    answer.write_str("G")?;
    for gm in gms {
        write!(answer, " {gm}")?;
    }
    writeln!(answer)
}

// The line of a light ship: A, GM as measured, its weight, its moment and KG.
fn write_ship(answer: &mut Text, ship: LightShip) -> fmt::Result {
    writeln!(
        answer,
        "A {} {} {} {}",
        ship.measured_gm, ship.weight, ship.vertical_moment, ship.vcg
    )
}
