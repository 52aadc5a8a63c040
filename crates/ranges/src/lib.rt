// The paper's limits, refusals and particulars: each number of the paper against its range.
#![tactic(auto)]

mod bounds;
mod refusal;
mod tables;

ghost use Rattle.std.specs.Prelude.{◌≡◌, length, map, pos};
ghost use Rattle.ranges.specs.Fields.{particulars};
ghost use Rattle.ranges.specs.Limits.{limits};
ghost use Rattle.ranges.specs.Outside.{numbers_of, particulars_of, too_long, bad_particular};
ghost use Rattle.ranges.specs.Bounds.{place_in};
ghost use Rattle.ranges.specs.Sides.{sides_of};
ghost use Rattle.ranges.specs.Sizes.{whole_records, item_width, tank_width, most_items, most_tanks};

pub use bounds::{
    Bounds, HALF_BREADTH, HIGHEST_METACENTRE, HOPPER_INTERVAL, LIQUID_DENSITY,
    MOST_DRAFT_INTERVALS, MOST_LENGTH_INTERVALS, Number, Record, WATERLINE_SPACING,
};
pub use refusal::{Reason, Refusal};
pub use tables::first_outside;

// A hull's particulars: n intervals of length, m intervals of draft, s mm between stations, d mm between waterlines, and
// the water's density in kg/m³.
#[derive(Clone, Copy, Debug, PartialEq, Eq)]
pub struct Particulars {
    pub n: usize,
    pub m: usize,
    pub s: u64,
    pub d: u64,
    pub density: u64,
}

// A signed y in mm from the middle line as its two sides, one of which is 0.
#[derive(Clone, Copy, Debug, PartialEq, Eq)]
pub struct Sides {
    pub port: u64,
    pub starboard: u64,
}

// How many particulars there are, and how many numbers an item, a tank, a row, an inclining test and a shift have.
pub const PARTICULAR_COUNT: usize = 5;

pub const ITEM_WIDTH: usize = 4;

pub const TANK_WIDTH: usize = 8;

pub const ROW_WIDTH: usize = 7;

pub const INCLINING_WIDTH: usize = 4;

pub const SHIFT_WIDTH: usize = 3;

// s, the third particular.
pub const SPACING: usize = 2;

// The greatest length, n·s, in mm.
pub const LONGEST_HULL: u64 = 100_000;

// The most stations and waterlines, n + 1 and m + 1; the most rows, m − 1; the most items and tanks.
pub const MOST_STATIONS: usize = MOST_LENGTH_INTERVALS as usize + 1;

pub const MOST_WATERLINES: usize = MOST_DRAFT_INTERVALS as usize + 1;

pub const MOST_ROWS: usize = MOST_DRAFT_INTERVALS as usize - 1;

pub const MOST_ITEMS: usize = 32;

pub const MOST_TANKS: usize = 16;

// The most bytes of a file.
pub const LONGEST_FILE: usize = 32_768;

// The room that holds the numbers of any file.
pub const HALF_BREADTH_ROOM: usize = MOST_STATIONS * MOST_WATERLINES;

pub const ITEM_ROOM: usize = ITEM_WIDTH * MOST_ITEMS;

pub const TANK_ROOM: usize = TANK_WIDTH * MOST_TANKS;

impl From<i64> for Sides {
    ghost from_gives = { λ y sides. sides ≡ sides_of y };

    fn from(y: i64) -> Sides {
        let size = arithmetic::magnitude(y);
        if arithmetic::is_negative(y) {
            Sides {
                port: size,
                starboard: 0,
            }
        } else {
            Sides {
                port: 0,
                starboard: size,
            }
        }
    }
}

impl From<[u64; PARTICULAR_COUNT]> for Particulars {
    ghost from_gives = { λ numbers p. p ≡ particulars_of (map pos numbers) };

    fn from(numbers: [u64; PARTICULAR_COUNT]) -> Particulars {
        Particulars {
            n: numbers[0] as usize,
            m: numbers[1] as usize,
            s: numbers[2],
            d: numbers[3],
            density: numbers[4],
        }
    }
}

impl Particulars {
    // The five numbers, in the file's order.
    pub fn numbers(self) -> [u64; PARTICULAR_COUNT]
        ensures { map pos result ≡ numbers_of self }
    {
        [self.n as u64, self.m as u64, self.s, self.d, self.density]
    }
}

// Whether a hull's length n·s is above the greatest, whatever the two are.
#[tactic(auto, unfolding(crate::specs::Outside::too_long))]
pub fn is_too_long(p: Particulars) -> bool
    ensures { result ≡ too_long limits p }
{
    let n = p.n as u64;
    n != 0 && LONGEST_HULL / n < p.s
}

// The place of the first particular out of range; where none is and the hull is too long, that of s.
pub fn bad_particular(p: Particulars) -> Option<usize>
    ensures { result ≡ place_in (length particulars) (bad_particular p) }
{
    let numbers = p.numbers();
    if let Some(place) = first_outside(&numbers, Record::Particulars) {
        return Some(place);
    }
    if is_too_long(p) {
        return Some(SPACING);
    }
    None
}

// Whether so many numbers are whole items, and no more than there may be. This and the next name the paper's two tables, by the one call
// below: so no caller can take the one's limit for the other's.
pub fn items_fit(count: usize) -> bool
    ensures { result ≡ whole_records item_width most_items count }
{
    whole_records(ITEM_WIDTH, MOST_ITEMS, count)
}

// Whether so many numbers are whole tanks, and no more than there may be.
pub fn tanks_fit(count: usize) -> bool
    ensures { result ≡ whole_records tank_width most_tanks count }
{
    whole_records(TANK_WIDTH, MOST_TANKS, count)
}

// Whether so many numbers are whole records of a width, and no more than allowed; none are of no width.
#[tactic(auto, unfolding(crate::specs::Sizes::whole_records))]
pub fn whole_records(width: usize, allowed: usize, count: usize) -> bool
    ensures { result ≡ whole_records width allowed count }
{
    if width == 0 {
        return count == 0;
    }
    count % width == 0 && count / width <= allowed
}
