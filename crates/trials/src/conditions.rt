// Conditions at their limits, over three rows made for them: KM rises from the first to the second and falls to the third.
use loading::{Condition, Heel, Reading};
use ranges::Refusal;
use std::io;

const ROWS: [u64; 21] = [
    600, 100_000, 9_000, 250, 1_750, 2_000, 1, 900, 200_000, 9_000, 400, 2_600, 3_000, 1, 1_200,
    300_000, 9_000, 500, 2_000, 2_500, 1,
];

// The second row is no heavier than the first.
const BAD_ROWS: [u64; 14] = [
    600, 100_000, 9_000, 250, 1_750, 2_000, 1, 900, 100_000, 9_000, 400, 2_600, 3_000, 1,
];

pub(crate) fn print_all(rt: &impl Print) -> io::Result<()> {
    println!(rt; "weights")?;
    weights(rt, Reading::Lesser)?;
    println!(rt; "weights by the straight line")?;
    weights(rt, Reading::StraightLine)?;
    metacentric_heights(rt)?;
    heels(rt)?;
    tanks(rt)?;
    refusals(rt)
}

// One item of a weight, at 9 m from station 0.
fn one(rt: &impl Print, kg: i64, y: i64, z: i64) -> io::Result<()> {
    try_load(rt, &[kg, 9_000, y, z], &[], &ROWS)
}

// At each row's own weight, a kilogram beside it and between rows, just too light and just too heavy.
fn weights(rt: &impl Print, reading: Reading) -> io::Result<()> {
    for kg in [
        99_999, 100_000, 100_001, 150_001, 199_999, 200_000, 200_001, 249_999, 299_999, 300_000,
    ] {
        two(rt, reading, kg, 0)?;
    }
    two(rt, reading, 300_000, 1)
}

// Two items of these weights, a metre up, at 9 m from station 0.
fn two(rt: &impl Print, reading: Reading, kg: i64, more: i64) -> io::Result<()> {
    let items = [kg, 9_000, 0, 1_000, more, 9_000, 0, 1_000];
    print_answer(rt, loading::condition_by(reading, &items, &[], &ROWS))
}

// GM of 150, 149, 1, 0 and below.
fn metacentric_heights(rt: &impl Print) -> io::Result<()> {
    println!(rt; "metacentric heights")?;
    for z in [1_850, 1_851, 1_999, 2_000, 30_000] {
        one(rt, 100_000, 0, z)?;
    }
    Ok(())
}

// At the limit of heel and one kg·mm beyond it, to each side.
fn heels(rt: &impl Print) -> io::Result<()> {
    println!(rt; "heels")?;
    three(rt, [(70_000, 176), (30_000, 177), (0, 0)])?;
    three(rt, [(70_000, -176), (30_000, -177), (0, 0)])?;
    three(rt, [(70_000, 176), (29_999, 177), (1, 178)])?;
    three(rt, [(70_000, -176), (29_999, -177), (1, -178)])?;
    one(rt, 100_000, 1, 2_001)
}

// Three items a metre up, each by its weight and how far it stands to starboard.
fn three(rt: &impl Print, items: [(i64, i64); 3]) -> io::Result<()> {
    let [(a, a_off), (b, b_off), (c, c_off)] = items;
    let items = [a, 0, a_off, 1_000, b, 0, b_off, 1_000, c, 0, c_off, 1_000];
    try_load(rt, &items, &[], &ROWS)
}

// A tank half full, full, empty, full but for a kilogram, at 98 per cent and a kilogram below it; and one too full.
fn tanks(rt: &impl Print) -> io::Result<()> {
    println!(rt; "tanks")?;
    for kg in [5_000, 8_000, 0, 7_999, 7_840, 7_839, 8_001] {
        one_tank(rt, kg)?;
    }
    Ok(())
}

fn one_tank(rt: &impl Print, kg: i64) -> io::Result<()> {
    try_load(
        rt,
        &[100_000, 9_000, 0, 1_000],
        &[kg, 8_000, 9_000, 0, 500, 4_000, 2_000, 1_000],
        &ROWS,
    )
}

fn refusals(rt: &impl Print) -> io::Result<()> {
    println!(rt; "refusals")?;
    refused_tables(rt)?;
    refused_numbers(rt)
}

// Tables of a wrong size, and rows that are not usable.
fn refused_tables(rt: &impl Print) -> io::Result<()> {
    try_load(rt, &[1, 2, 3], &[1], &[])?;
    try_load(rt, &[], &[1], &[])?;
    try_load(rt, &[], &[], &[1, 2, 3, 4, 5, 6, 7])?;
    try_load(rt, &[300_001, 0, 0, 0], &[], &BAD_ROWS)?;
    try_load(rt, &[300_000, 0, 0, 0, 300_001, 0, 0, 0], &[8_001], &ROWS)
}

// Numbers out of range, and contents above capacity.
fn refused_numbers(rt: &impl Print) -> io::Result<()> {
    try_load(rt, &[300_000, 0, 0, 0, 0, 0, 10_001, 0], &[], &ROWS)?;
    try_load(rt, &[], &[2, 1, 0, 0, 0, 1, 1, 1_501], &ROWS)?;
    try_load(rt, &[], &[2, 1, 0, 0, 0, 1, 1, 1_500], &ROWS)
}

// Prints what a load comes to by the default reading.
fn try_load(rt: &impl Print, items: &[i64], tanks: &[i64], rows: &[u64]) -> io::Result<()> {
    print_answer(rt, loading::condition_of(items, tanks, rows))
}

fn print_answer(rt: &impl Print, answer: Result<Condition, Refusal>) -> io::Result<()> {
    match answer {
        // Not calls::write_refusal: that writes into a text, and this prints.
        Err(refusal) => println!(rt; "E {} {}", refusal.reason.number(), refusal.place),
        Ok(condition) => print_condition(rt, condition),
    }
}

fn print_condition(rt: &impl Print, c: Condition) -> io::Result<()> {
    print!(rt; "C {} {} {} {}", c.weight, c.draft, c.km, c.lcg)?;
    print!(rt;
        " {} {} {} {}",
        c.vertical_moment, c.free_surface, c.gm, c.transverse_moment
    )?;
    println!(rt; " {} {}", name_of(c.heel), u8::from(c.passes))
}

// The words of a heel stand here as well: report's are bytes for its lines and private to it, and through them a `str::from_utf8` and
// an error that cannot be would be needed.
fn name_of(heel: Heel) -> &'static str {
    match heel {
        Heel::Unstable => "unstable",
        Heel::Upright => "upright",
        Heel::Heeled(_) => "heeled",
        Heel::Beyond => "beyond",
    }
}
