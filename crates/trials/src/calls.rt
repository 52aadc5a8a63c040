// The cases of calls in data/: for every file of what is given to a call, the answer beside it.
use crate::data;
use crate::inclinings::Inclinings;
use crate::profiles::Profiles;
use crate::surfaces::Surfaces;
use crate::tallies::Tallies;
use crate::text::Text;
use crate::trying::{self, Trial};
use ranges::Refusal;
use std::fmt::{self, Write};
use std::io;
use std::rt::Files;

// A call that has cases of its own: CALL-NNN.in holds what is given to it, and CALL-NNN.out its answer.
pub(crate) trait Call {
    // How the names of its files begin.
    const START: &'static str;
    // How many of its cases differ is printed after this.
    const DIFFERING: &'static str;
    // There are no fewer cases than these, so that a lost one is noticed.
    const FEWEST: u64;

    // Reads what is given, and passes what the call answers in the answer; None where either has something else.
    fn compare(given: &mut Text, answer: &mut Text) -> Option<()>;
}

// What a call answers where it does not refuse.
pub(crate) trait Lines: Copy {
    // Passes its lines in an answer.
    fn write(self, answer: &mut Text) -> fmt::Result;
}

// Room for a case, and for its answer.
const LONGEST: usize = 16_384;

// Tries the cases of every call.
pub(crate) fn try_all(rt: &(impl Files + Print)) -> io::Result<()> {
    try_call::<Tallies, _>(rt)?;
    try_call::<Surfaces, _>(rt)?;
    try_call::<Inclinings, _>(rt)?;
    try_call::<Profiles, _>(rt)
}

// Prints which cases of a call fail and how many, and where some are lost.
fn try_call<C: Call, R: Files + Print>(rt: &R) -> io::Result<()> {
    let count = trying::try_each(rt, |number| trial_at::<C, R>(rt, number))?;
    println!(rt; "{}{}", C::DIFFERING, count.differing)?;
    trying::print_lost(rt, "cases", count.tried, C::FEWEST)
}

// What trying the case of this number shows, where there is one.
fn trial_at<C: Call, R: Files>(rt: &R, number: u64) -> io::Result<Option<Trial>> {
    if data::open(rt, C::START, number, ".in").is_err() {
        return Ok(None);
    }
    let differs = is_differing::<C, R>(rt, number)?;
    Ok(Some(Trial::beside_answer(differs)))
}

// Whether a case has no answer beside it, or not its own. Each file is closed before another is opened: no two are open at a time.
// Out of line, so that no room is cleared for a case that is not there.
#[inline(never)]
fn is_differing<C: Call, R: Files>(rt: &R, number: u64) -> io::Result<bool> {
    if data::open(rt, C::START, number, ".out").is_err() {
        return Ok(true);
    }
    let mut given = [0u8; LONGEST];
    let mut answer = [0u8; LONGEST];
    let mut file = data::open(rt, C::START, number, ".in")?;
    let given = data::read(&mut file, &mut given)?;
    drop(file);
    let mut file = data::open(rt, C::START, number, ".out")?;
    let answer = data::read(&mut file, &mut answer)?;
    Ok(!is_answered::<C>(given, answer))
}

// Whether a call's answer to what is given is this one, and nothing is left of either.
fn is_answered<C: Call>(given: &[u8], answer: &[u8]) -> bool {
    let mut given = Text::new(given);
    let mut answer = Text::new(answer);
    C::compare(&mut given, &mut answer).is_some() && given.is_at_end() && answer.is_at_end()
}

// Passes what a call made: the lines of its answer, or that of a refusal.
pub(crate) fn write_answer<L: Lines>(answer: &mut Text, made: Result<L, Refusal>) -> fmt::Result {
    match made {
        Ok(lines) => lines.write(answer),
        Err(refusal) => write_refusal(answer, refusal),
    }
}

// The line of a refusal: E, its number and its place.
fn write_refusal(answer: &mut Text, refusal: Refusal) -> fmt::Result {
    writeln!(answer, "E {} {}", refusal.reason.number(), refusal.place)
}
