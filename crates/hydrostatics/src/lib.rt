// The rows of a hull, by waterplanes and by sections, and their display.
#![tactic(auto)]

mod hull;
mod sections;
mod table;
mod waterplanes;

ghost use Rattle.std.specs.Prelude.{◌≡◌, map, ◌<◌, ◌≤◌, ◌^◌, pos};
ghost use Rattle.std.specs.Float.Ieee as Ieee;
ghost use Rattle.std.specs.Float.{binary64};
ghost use Rattle.ranges.specs.Outside.{first_outside};
ghost use Rattle.hydrostatics.specs.Display.{figures_of, display_of};
ghost use Rattle.hydrostatics.specs.Promise.{MakesRows};
ghost use Rattle.hydrostatics.specs.Usable.{row_in};
ghost use Rattle.ranges.specs.Fields.{row_ranges};
ghost use Rattle.ranges.specs.Bounds.{place_in};
ghost use Rattle.ranges.specs.Reasons.{paper};
ghost use Rattle.ranges.specs.Sizes.{row_width};
ghost use Rattle.hydrostatics.specs.Row.{numbers_of};
ghost use Rattle.hydrostatics.specs.Private.Sums.{TriedSums};

use hull::Hull;
use ranges::{Particulars, Reason, Record, Refusal};
use table::{RowSums, Sums};

// The seven numbers of a row: mm, kg, mm, mm, mm, mm, mm².
#[derive(Clone, Copy, Debug, PartialEq, Eq)]
pub struct Row {
    pub draft: u64,
    pub displacement: u64,
    pub lcb: u64,
    pub kb: u64,
    pub bm: u64,
    pub km: u64,
    pub area: u64,
}

// A row for display: metres, tonnes, and square metres for the area.
#[derive(Clone, Copy, Debug, PartialEq)]
pub struct Figures {
    pub draft: f64,
    pub displacement: f64,
    pub lcb: f64,
    pub kb: f64,
    pub bm: f64,
    pub km: f64,
    pub area: f64,
}

// How many numbers a row has, how many rows the largest hull has, and the room for all of them: the names for those who call this
// crate, of what ranges states.
pub const ROW_WIDTH: usize = ranges::ROW_WIDTH;

pub const MOST_ROWS: usize = ranges::MOST_ROWS;

pub const ROW_ROOM: usize = ROW_WIDTH * MOST_ROWS;

impl From<[u64; ROW_WIDTH]> for Row {
    ghost from_gives = { λ numbers row. row ≡ row_in numbers 0 };

    #[tactic(auto, unfolding(crate::specs::Usable::row_in))]
    fn from(numbers: [u64; ROW_WIDTH]) -> Row {
        let [draft, displacement, lcb, kb, bm, km, area] = numbers;
        Row {
            draft,
            displacement,
            lcb,
            kb,
            bm,
            km,
            area,
        }
    }
}

impl Row {
    // The seven numbers, in the file's order.
    pub fn numbers(self) -> [u64; ROW_WIDTH]
        ensures { result ≡ numbers_of self }
    {
        [
            self.draft,
            self.displacement,
            self.lcb,
            self.kb,
            self.bm,
            self.km,
            self.area,
        ]
    }
}

// The rows of a hull into the lent table, by any way of making the sums of a complete one.
fn make_by<F: Fn(Hull) -> Option<[Sums; MOST_ROWS]>>(
    sums_of: F,
    half_breadths: &[u64],
    p: Particulars,
    rows: &mut [u64],
) -> Result<usize, Refusal>
    requires can { F.IsAlwaysCallable sums_of }
    requires makes { (hull : _) (sums : _) → F.post sums_of hull sums → TriedSums hull.half_breadths.now hull.particulars sums }
    ensures { MakesRows half_breadths.now p rows.old rows.new result }
{
    if let Some(place) = ranges::bad_particular(p) {
        return Err(Reason::OutOfRange.at(place));
    }
    if half_breadths.len() != (p.n + 1) * (p.m + 1) {
        return Err(Reason::WrongSize.at(Refusal::HALF_BREADTH_TABLE));
    }
    let count = p.m - 1;
    if rows.len() < ROW_WIDTH * count {
        return Err(Reason::WrongSize.at(Refusal::ROW_TABLE));
    }
    let hull = Hull {
        half_breadths,
        particulars: p,
    };
    let Some(sums) = sums_of(hull) else {
        // The first one out of range is looked for only where there is one.
        let outside = ranges::first_outside(half_breadths, Record::HalfBreadth).unwrap();
        return Err(Reason::OutOfRange.at(Refusal::HALF_BREADTHS_AT + outside));
    };
    let made = RowSums {
        particulars: p,
        sums: &sums[..count],
    };
    made.fill(rows)
}

// The rows of a hull into the lent table.
pub fn make_rows(half_breadths: &[u64], p: Particulars, rows: &mut [u64]) -> Result<usize, Refusal>
    ensures { MakesRows half_breadths.now p rows.old rows.new result }
{
    make_by(waterplanes::hull_sums, half_breadths, p, rows)
}

// The same rows by the plain calculation that a surveyor follows: station areas first, and then along the length.
pub fn make_rows_by_sections(
    half_breadths: &[u64],
    p: Particulars,
    rows: &mut [u64],
) -> Result<usize, Refusal>
    ensures { MakesRows half_breadths.now p rows.old rows.new result }
{
    make_by(sections::hull_sums, half_breadths, p, rows)
}

// A metre in mm, which is also a tonne in kg, and a square metre in mm².
const METRE: f64 = 1_000.0;

const SQUARE_METRE: f64 = 1_000_000.0;

// The place of the first number of a row out of range.
pub fn row_outside(row: Row) -> Option<usize>
    ensures { result ≡ place_in row_width (first_outside row_ranges (map pos (numbers_of row))) }
{
    let numbers = row.numbers();
    ranges::first_outside(&numbers, Record::Row)
}

// n over a unit: one division, of a whole number that is converted exactly.
fn divided(n: u64, unit: f64) -> f64
    requires { n ≤ 2 ^ 53 }
    ensures { result ≡ Ieee.div binary64 (Ieee.of_int binary64 (pos n)) unit }
{
    n as f64 / unit
}

// The figures of a row whose numbers are in range.
#[tactic(auto, using(crate::proofs::InRows::row_in_range))]
fn figures_of(row: Row) -> Figures
    requires { first_outside row_ranges (map pos (numbers_of row)) ≡ row_width }
    ensures { result ≡ figures_of row }
{
    Figures {
        draft: divided(row.draft, METRE),
        displacement: divided(row.displacement, METRE),
        lcb: divided(row.lcb, METRE),
        kb: divided(row.kb, METRE),
        bm: divided(row.bm, METRE),
        km: divided(row.km, METRE),
        area: divided(row.area, SQUARE_METRE),
    }
}

// A row for display, in metres, tonnes and square metres.
pub fn display_row(row: Row) -> Result<Figures, Refusal>
    ensures { paper result ≡ display_of row }
{
    if let Some(place) = row_outside(row) {
        return Err(Reason::OutOfRange.at(place));
    }
    Ok(figures_of(row))
}
