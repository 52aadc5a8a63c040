// A case of the running tally: a count and so many steps, and its answer, a line a step.
use crate::calls::{self, Call, Lines};
use crate::text::Text;
use loading::Totals;
use std::fmt;
use std::fmt::Write;
use tally::{Item, Place, Stepped, Tally};

// A step of a case, each to a slot.
#[derive(Clone, Copy)]
enum Step {
    Load(usize, Item),
    Discharge(usize),
    Shift(usize, Place),
}

pub(crate) struct Tallies;

impl Call for Tallies {
    const START: &'static str = "tally-";

    const DIFFERING: &'static str = "tallies that differ ";

    const FEWEST: u64 = 40;

    // The steps are taken one after another, from an empty tally on.
    fn compare(given: &mut Text, answer: &mut Text) -> Option<()> {
        let steps: u64 = given.number()?;
        given.line_end()?;
        let mut tally = tally::empty();
        for _ in 0..steps {
            let step = Step::read(given)?;
            let stepped = step.taken(tally);
            let made = stepped.answer.map(|()| stepped.tally.totals);
            calls::write_answer(answer, made).ok()?;
            tally = stepped.tally;
        }
        Some(())
    }
}

impl Step {
    // Reads the line of a step, by its letter; under any other letter there is none.
    fn read(given: &mut Text) -> Option<Step> {
        let step = if given.piece(b"L ").is_some() {
            Step::Load(given.number()?, item_of(given)?)
        } else if given.piece(b"D ").is_some() {
            Step::Discharge(given.number()?)
        } else {
            given.piece(b"S ")?;
            Step::Shift(given.number()?, place_of(given)?)
        };
        given.line_end()?;
        Some(step)
    }

    fn taken(self, tally: Tally) -> Stepped {
        match self {
            Step::Load(slot, item) => tally::loaded(tally, slot, item),
            Step::Discharge(slot) => tally::discharged(tally, slot),
            Step::Shift(slot, place) => tally::shifted(tally, slot, place),
        }
    }
}

// Reads kg, x, y and z.
fn item_of(given: &mut Text) -> Option<Item> {
    Some(Item {
        kg: given.next()?,
        x: given.next()?,
        y: given.next()?,
        z: given.next()?,
    })
}

// Reads x, y and z.
fn place_of(given: &mut Text) -> Option<Place> {
    Some(Place {
        x: given.next()?,
        y: given.next()?,
        z: given.next()?,
    })
}

// A step's line in the answer: A and the totals.
impl Lines for Totals {
    fn write(self, answer: &mut Text) -> fmt::Result {
        writeln!(
            answer,
            "A {} {} {} {}",
            self.weight, self.longitudinal, self.vertical, self.transverse
        )
    }
}
