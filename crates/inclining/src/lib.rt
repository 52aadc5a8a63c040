// The inclining test: GM as measured by shifting weights, and the light ship that follows from it.
#![tactic(auto)]

ghost use Rattle.std.specs.Prelude.{◌≡◌, ◌*◌, ◌/◌, ◌≤◌, length, map, pos};
ghost use Rattle.ranges.specs.Bounds.{place_in};
ghost use Rattle.ranges.specs.Fields.{shift};
ghost use Rattle.ranges.specs.Outside.{first_outside};
ghost use Rattle.ranges.specs.Reasons.{paper};
ghost use Rattle.ranges.specs.Sizes.{shift_width};
ghost use Rattle.loading.specs.Items.{totals_of_items};
ghost use Rattle.inclining.specs.Inclining.{shifts_fit, count, outside, MakesLightShip};
ghost use Rattle.inclining.specs.Light.{lightened};
ghost use Rattle.inclining.specs.Measured.{shifts_of, own_gms};
ghost use Rattle.inclining.specs.Private.Heeling.{table_count, wrong_table, heeling_by, heeling_of, shift_at, gm_by, laid_over, TestInRange, ShiftInRange, ShiftsInRange, HeelingInRange, ListFits, TotalsInRange, most_righting};

use loading::Totals;
use ranges::{Bounds, INCLINING_WIDTH, Number, Reason, Record, Refusal, SHIFT_WIDTH};

// The ship as it lay at the test: displacement in kg, KM in mm and free surface in kg·mm; and the pendulum's length in mm.
#[derive(Clone, Copy, Debug, PartialEq, Eq)]
pub struct Test {
    pub weight: u64,
    pub km: u64,
    pub free_surface: u64,
    pub pendulum: u64,
}

// GM as measured, in mm; the light ship's weight, in kg, its vertical moment, in kg·mm, and KG, the height of its centre of gravity, in mm.
#[derive(Clone, Copy, Debug, PartialEq, Eq)]
pub struct LightShip {
    pub measured_gm: u64,
    pub weight: u64,
    pub vertical_moment: u64,
    pub vcg: u64,
}

// A test whose numbers are in their ranges.
#[derive(Clone, Copy)]
struct Tried {
    test: Test,
    ghost in_range: { TestInRange test },
}

// What shifts come to together: the total of weight times distance, and that of deflection.
#[derive(Clone, Copy)]
struct Heeling {
    moment: u64,
    deflection: u64,
}

// How many shifts there may be.
const SHIFTS: Bounds = Bounds::FromTo(2, 12);

// The tables by number, as the places of a wrong size: a place of the paper is one.
const SHIFT_TABLE: usize = 0;

const OFF_TABLE: usize = 1;

const ON_TABLE: usize = 2;

const GM_TABLE: usize = 3;

// Whether so many numbers are whole shifts, and as many as there may be.
#[tactic(auto, unfolding(crate::specs::Inclining::shifts_fit))]
fn shifts_fit(count: usize) -> bool
    ensures { result ≡ shifts_fit count }
{
    count % SHIFT_WIDTH == 0 && ((count / SHIFT_WIDTH) as u64).is_within(SHIFTS)
}

// The first table of a wrong size, by its number.
#[tactic(auto, using(arithmetic::proofs::Choice::told), unfolding(crate::specs::Private::Heeling::wrong_table, ranges::specs::Bounds::place_in))]
fn wrong_table(shifts: usize, off: usize, on: usize, room: usize) -> Option<usize>
    ensures { result ≡ place_in table_count (wrong_table shifts off on room) }
{
    if !shifts_fit(shifts) {
        return Some(SHIFT_TABLE);
    }
    if !ranges::items_fit(off) {
        return Some(OFF_TABLE);
    }
    if !ranges::items_fit(on) {
        return Some(ON_TABLE);
    }
    if room < shifts / SHIFT_WIDTH {
        return Some(GM_TABLE);
    }
    None
}

// The place of the first number of the shifts out of its range. Shift by shift: of three numbers the compiler has the three ranges as
// constants, where a walk over the whole table takes a remainder for each number.
fn shift_outside(shifts: &[u64]) -> Option<usize>
    ensures { result ≡ place_in (length shifts.now) (first_outside shift (map pos shifts.now)) }
{
    let (records, rest) = shifts.as_chunks::<SHIFT_WIDTH>();
    for (i, numbers) in records.iter().enumerate() {
        if let Some(place) = ranges::first_outside(numbers, Record::Shift) {
            return Some(SHIFT_WIDTH * i + place);
        }
    }
    // What is no whole shift.
    if let Some(place) = ranges::first_outside(rest, Record::Shift) {
        return Some(SHIFT_WIDTH * records.len() + place);
    }
    None
}

// The position on the sheet of the first number out of its range: of the test's own, the shifts, the list to take off, the list to put on.
// The three tables stay parameters, as the public call is lent them: no fact about them together stands in a clause.
fn outside_of(test: Test, shifts: &[u64], off: &[i64], on: &[i64]) -> Option<usize>
    ensures { result ≡ place_in (count shifts.now off.now on.now) (outside test shifts.now off.now on.now) }
{
    let numbers = [test.weight, test.km, test.free_surface, test.pendulum];
    if let Some(place) = ranges::first_outside(&numbers, Record::InclinedShip) {
        return Some(place);
    }
    if let Some(place) = shift_outside(shifts) {
        return Some(INCLINING_WIDTH + place);
    }
    if let Some(place) = ranges::first_outside(off, Record::Item) {
        return Some(INCLINING_WIDTH + shifts.len() + place);
    }
    if let Some(place) = ranges::first_outside(on, Record::Item) {
        return Some(INCLINING_WIDTH + shifts.len() + off.len() + place);
    }
    None
}

// What a shift comes to.
fn heeling_of(shift: &[u64; SHIFT_WIDTH]) -> Heeling
    requires { ShiftInRange (shift_at shift.now 0) }
    ensures { result ≡ heeling_of (shift_at shift.now 0) }
{
    let [weight, distance, deflection] = *shift;
    Heeling {
        moment: weight * distance,
        deflection,
    }
}

// What all shifts of a table come to.
fn heeling_by(shifts: &[u64]) -> Heeling
    requires { ShiftsInRange shifts.now }
    ensures { result ≡ heeling_by (shifts_of shifts.now) }
{
    let (records, _) = shifts.as_chunks::<SHIFT_WIDTH>();
    let mut moment: u64 = 0;
    let mut deflection: u64 = 0;
    for shift in records {
        let one = heeling_of(shift);
        moment += one.moment;
        deflection += one.deflection;
    }
    Heeling { moment, deflection }
}

impl Tried {
    // GM as measured by what shifts come to, rounded down.
    fn gm(self, heeling: Heeling) -> u64
        requires { HeelingInRange heeling }
        ensures { result ≡ gm_by self.test heeling }
    {
        let test = self.test;
        heeling.moment * test.pendulum / (test.weight * heeling.deflection)
    }

    // Leaves each shift's own GM in the table; places beyond the last shift stay.
    fn leave_gms(self, shifts: &[u64], gms: &mut [u64])
        requires { ShiftsInRange shifts.now × (length shifts.now / shift_width ≤ length gms.old) }
        ensures { gms.new ≡ laid_over (own_gms self.test (shifts_of shifts.now)) gms.old }
    {
        let (records, _) = shifts.as_chunks::<SHIFT_WIDTH>();
        for (i, shift) in records.iter().enumerate() {
            gms[i] = self.gm(heeling_of(shift));
        }
    }

    // The light ship by GM and the totals of what is taken off and put on.
    fn lightened(self, gm: u64, off: Totals, on: Totals) -> Result<LightShip, Refusal>
        requires { (self.test.weight * gm ≤ most_righting) × TotalsInRange off × TotalsInRange on }
        ensures { paper result ≡ lightened self.test off on gm }
    {
        let test = self.test;
        let aboard = test.weight + on.weight;
        let taken_off = off.weight;
        let added = test.weight * test.km + on.vertical;
        let deducted = test.weight * gm + test.free_surface + off.vertical;
        if aboard <= taken_off {
            return Err(Reason::NoLightWeight.at(0));
        }
        if added < deducted {
            return Err(Reason::LightMomentNegative.at(0));
        }
        let weight = aboard - taken_off;
        let vertical_moment = added - deducted;
        let vcg = arithmetic::rounded_up(vertical_moment, weight);
        Ok(LightShip {
            measured_gm: gm,
            weight,
            vertical_moment,
            vcg,
        })
    }
}

// The totals of a list of items in range.
fn totals_of(items: &[i64]) -> Totals
    requires { ListFits items.now }
    ensures { result ≡ totals_of_items items.now }
{
    // A list that fits, in range, has its totals.
    loading::item_totals(items).unwrap()
}

// The light ship of a test, its shifts and the items to take off and to put on; each shift's own GM is left in `gms`.
pub fn light_ship(
    test: Test,
    shifts: &[u64],
    off: &[i64],
    on: &[i64],
    gms: &mut [u64],
) -> Result<LightShip, Refusal>
    ensures { MakesLightShip test shifts.now off.now on.now gms.old gms.new result }
{
    if let Some(table) = wrong_table(shifts.len(), off.len(), on.len(), gms.len()) {
        return Err(Reason::WrongSize.at(table));
    }
    if let Some(place) = outside_of(test, shifts, off, on) {
        return Err(Reason::OutOfRange.at(place));
    }
    let tried = Tried { test };
    let gm = tried.gm(heeling_by(shifts));
    let ship = tried.lightened(gm, totals_of(off), totals_of(on))?;
    tried.leave_gms(shifts, gms);
    Ok(ship)
}
