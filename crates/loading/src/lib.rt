// The loading condition: items, tanks and rows in, the condition or its one refusal out.
#![tactic(auto)]

ghost use Rattle.std.specs.Prelude.{◌≡◌, ◌<◌};
ghost use Rattle.loading.specs.Private.Aboard.{Bearable, ItemsFit, TanksWhole};
ghost use Rattle.loading.specs.Items.{item_totals};
ghost use Rattle.loading.specs.Paper.{default_reading};
ghost use Rattle.loading.specs.Promise.{MakesCondition};
ghost use Rattle.loading.specs.Private.Steady.{Steady, condition_with, totals_with, floats_with, after_items};
ghost use Rattle.loading.specs.Table.{hull};
ghost use Rattle.loading.specs.Condition.{rows_allowed};
ghost use Rattle.ranges.specs.Reasons.{paper};

use floating::Floating;
use ranges::{Reason, Refusal};
use rows::Rows;

mod floating;
mod items;
mod rows;
mod stability;
mod tanks;
mod usable;
mod weights;

// How the vessel lies.
#[derive(Clone, Copy, Debug, PartialEq)]
pub enum Heel {
    Unstable,
    Upright,
    // With the tangent of the angle.
    Heeled(f64),
    Beyond,
}

// How KM is read where the weight lies strictly between two rows. At a row's own weight that row's KM stands.
#[derive(Clone, Copy, Debug, PartialEq, Eq)]
pub enum Reading {
    // The lesser KM of the two.
    Lesser,
    // On the straight line between them, rounded down.
    StraightLine,
}

impl Reading {
    // The reading of a call that names none.
    pub const DEFAULT: Reading = Reading::Lesser;
}

// A loading condition: kg, mm and kg·mm.
#[derive(Clone, Copy, Debug, PartialEq)]
pub struct Condition {
    pub weight: u64,
    pub draft: u64,
    pub km: u64,
    pub lcg: u64,
    pub vertical_moment: u64,
    pub free_surface: u64,
    pub gm: i64,
    pub transverse_moment: i64,
    pub heel: Heel,
    pub passes: bool,
}

impl Condition {
    // The least GM that passes, mm.
    pub const LEAST_GM: u64 = 150;

    // The greatest heel that passes: the tangent of 10 degrees, in ten-thousandths.
    pub const HEEL_LIMIT: u64 = 1_763;

    // The condition of what is aboard, at its draft and the KM there.
    fn new(all: Aboard, floating: Floating) -> Condition
        requires { Steady all floating.km }
        ensures { result ≡ condition_with all floating.draft floating.km }
    {
        let Floating { draft, km } = floating;
        let weight = all.weight;
        let vertical_moment = all.vertical;
        let free_surface = all.surface;
        let gm = stability::gm_of(km, vertical_moment + free_surface, weight);
        let transverse_moment = stability::less(all.starboard, all.port);
        let heel = stability::heel_of(weight, gm, transverse_moment);
        Condition {
            weight,
            draft,
            km,
            lcg: all.longitudinal / weight,
            vertical_moment,
            free_surface,
            gm,
            transverse_moment,
            heel,
            passes: stability::passes(gm, heel),
        }
    }
}

// The weight, kg, and the three moments, kg·mm.
#[derive(Clone, Copy, Debug, PartialEq, Eq)]
pub struct Totals {
    pub weight: u64,
    pub longitudinal: u64,
    pub vertical: u64,
    pub transverse: i64,
}

// What is aboard, added up: kg, kg·mm; the transverse moment by its two sides. That it is no more than a barge can bear is asked
// where it is used and no field of this type, since a sum of two that can be borne need not be one.
#[derive(Clone, Copy, Debug, Default, PartialEq, Eq)]
struct Aboard {
    weight: u64,
    longitudinal: u64,
    vertical: u64,
    port: u64,
    starboard: u64,
    surface: u64,
}

// A condition needs two rows, to lie between them.
const LEAST_ROWS: usize = 2;

// 2 to 19 whole rows.
fn rows_allowed(count: usize) -> bool
    ensures { result ≡ rows_allowed count }
{
    ranges::whole_records(hydrostatics::ROW_WIDTH, hydrostatics::MOST_ROWS, count)
        && LEAST_ROWS <= count / hydrostatics::ROW_WIDTH
}

// What is aboard against the rows: too light below the first, too heavy above the last, and else the condition.
fn laden(reading: Reading, all: Aboard, rows: Rows) -> Result<Condition, Refusal>
    requires { Bearable all }
    ensures { paper result ≡ floats_with reading (hull rows.entry.numbers.now) all }
{
    let weight = all.weight;
    if weight < rows.displacement(0) {
        return Err(Reason::TooLight.at(0));
    }
    if rows.displacement(rows.count() - 1) < weight {
        return Err(Reason::TooHeavy.at(0));
    }
    let floating = floating::afloat(reading, rows, weight);
    Ok(Condition::new(all, floating))
}

// What items and tanks bring together, against the rows; each tank is tried before.
fn loaded(reading: Reading, items: &[i64], tanks: &[i64], rows: Rows) -> Result<Condition, Refusal>
    requires { ItemsFit items.now × TanksWhole tanks.now }
    ensures { paper result ≡ after_items reading items.now tanks.now (hull rows.entry.numbers.now) }
{
    let in_tanks = tanks::tanks_aboard(tanks)?;
    laden(reading, items::items_aboard(items) + in_tanks, rows)
}

// The condition of items and tanks over the rows of a hull, by a reading of KM, or the first refusal in the paper's order.
// Three slices, as they are lent from C.
pub fn condition_by(
    reading: Reading,
    items: &[i64],
    tanks: &[i64],
    rows: &[u64],
) -> Result<Condition, Refusal>
    ensures { MakesCondition reading Condition.LEAST_GM Condition.HEEL_LIMIT items.now tanks.now rows.now result }
{
    if !ranges::items_fit(items.len()) {
        return Err(Reason::WrongSize.at(Refusal::ITEM_TABLE));
    }
    if !ranges::tanks_fit(tanks.len()) {
        return Err(Reason::WrongSize.at(Refusal::TANK_TABLE));
    }
    let rows = Rows::of(rows)?;
    items::try_ranges(items)?;
    loaded(reading, items, tanks, rows)
}

// The same by the default reading.
pub fn condition_of(items: &[i64], tanks: &[i64], rows: &[u64]) -> Result<Condition, Refusal>
    ensures { MakesCondition default_reading Condition.LEAST_GM Condition.HEEL_LIMIT items.now tanks.now rows.now result }
{
    condition_by(Reading::DEFAULT, items, tanks, rows)
}

// The totals of what is aboard. No `From`, since it asks that they fit.
fn totals_of(all: Aboard) -> Totals
    requires { Bearable all }
    ensures { result ≡ totals_with all }
{
    Totals {
        weight: all.weight,
        longitudinal: all.longitudinal,
        vertical: all.vertical,
        transverse: stability::less(all.starboard, all.port),
    }
}

// The weight and moments of the items of a table, or the first refusal in the paper's order.
pub fn item_totals(items: &[i64]) -> Result<Totals, Refusal>
    ensures { paper result ≡ item_totals items.now }
{
    if !ranges::items_fit(items.len()) {
        return Err(Reason::WrongSize.at(Refusal::ITEM_TABLE));
    }
    items::try_ranges(items)?;
    Ok(totals_of(items::items_aboard(items)))
}
