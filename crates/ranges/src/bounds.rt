// The range of each number of the paper, and a number held against one.
ghost use Rattle.std.specs.Prelude.{◌≡◌, ◌<◌, ℤ, List, pos, map, length, refl};
ghost use Rattle.std.proofs.Common.{sym};
ghost use Rattle.std.proofs.lemmas.List.{map-id};
ghost use Rattle.ranges.specs.Fields.{within};
ghost use Rattle.ranges.specs.Bounds.{range_by, section_of};
ghost use Rattle.ranges.specs.Numbers.{ReadsEach, as_they_are};

use crate::{INCLINING_WIDTH, ITEM_WIDTH, PARTICULAR_COUNT, ROW_WIDTH, SHIFT_WIDTH, TANK_WIDTH};

// A range: from its least number to its greatest, or as far below 0 as above it.
#[derive(Clone, Copy, Debug, PartialEq, Eq)]
pub enum Bounds {
    FromTo(u64, u64),
    EitherSide(u64),
}

// A number that is held against a range: a whole one, or one of either sign.
pub trait Number: Copy {
    ghost value: { Self → ℤ };

    ghost values: { List Self → List ℤ };

    fn is_within(self, bounds: Bounds) -> bool
        ensures { result ≡ within (range_by bounds) (value self) };

    // The values of a table are those of its numbers.
    ghost reads_each: { ReadsEach value values };
}

impl Number for u64 {
    ghost value = { pos };

    ghost values = { map pos };

    ghost reads_each = { λ table. refl };

    #[tactic(auto, unfolding(crate::specs::Fields::within))]
    fn is_within(self, bounds: Bounds) -> bool {
        match bounds {
            Bounds::FromTo(least, greatest) => least <= self && self <= greatest,
            Bounds::EitherSide(greatest) => self <= greatest,
        }
    }
}

impl Number for i64 {
    ghost value = { λ v. v };

    ghost values = { as_they_are };

    ghost reads_each = { λ table. sym (map-id table) };

    #[tactic(auto, unfolding(crate::specs::Fields::within))]
    fn is_within(self, bounds: Bounds) -> bool {
        let size = arithmetic::magnitude(self);
        match bounds {
            Bounds::FromTo(_, _) => !arithmetic::is_negative(self) && size.is_within(bounds),
            Bounds::EitherSide(greatest) => size <= greatest,
        }
    }
}

// The most intervals of length, n, and of draft, m; the highest KM, in mm.
pub const MOST_LENGTH_INTERVALS: u64 = 80;

pub const MOST_DRAFT_INTERVALS: u64 = 20;

pub const HIGHEST_METACENTRE: u64 = 100_000;

// A ship's displacement, kg, and its KM, mm.
const DISPLACEMENT: Bounds = Bounds::FromTo(1, 17_600_000);

const METACENTRE: Bounds = Bounds::FromTo(0, HIGHEST_METACENTRE);

// Where a weight may stand, in mm: x from station 0, y to either side, and z.
const X: Bounds = Bounds::FromTo(0, 100_000);

const Y: Bounds = Bounds::EitherSide(10_000);

const Z: Bounds = Bounds::FromTo(0, 30_000);

// The distance between waterlines, mm; a half-breadth, mm; a liquid's density, kg/m³.
pub const WATERLINE_SPACING: Bounds = Bounds::FromTo(10, 500);

pub const HALF_BREADTH: Bounds = Bounds::FromTo(0, 8_000);

pub const LIQUID_DENSITY: Bounds = Bounds::FromTo(1, 1_500);

// The interval between the widths of a hopper tank, mm.
pub const HOPPER_INTERVAL: Bounds = Bounds::FromTo(50, 1_000);

static PARTICULARS: [Bounds; PARTICULAR_COUNT] = [
    Bounds::FromTo(2, MOST_LENGTH_INTERVALS), // n
    Bounds::FromTo(3, MOST_DRAFT_INTERVALS), // m
    Bounds::FromTo(50, 2_500), // s
    WATERLINE_SPACING, // d
    Bounds::FromTo(900, 1_100), // density
];

static HALF_BREADTHS: [Bounds; 1] = [HALF_BREADTH];

static ITEM: [Bounds; ITEM_WIDTH] = [
    Bounds::FromTo(0, 300_000), // kg
    X,
    Y,
    Z,
];

static TANK: [Bounds; TANK_WIDTH] = [
    Bounds::FromTo(0, 400_000), // contents
    Bounds::FromTo(1, 400_000), // capacity
    X,
    Y,
    Z,
    Bounds::FromTo(1, 10_000), // length
    Bounds::FromTo(1, 8_000), // breadth
    LIQUID_DENSITY,
];

static ROW: [Bounds; ROW_WIDTH] = [
    Bounds::FromTo(20, 10_000), // draft
    DISPLACEMENT,
    Bounds::FromTo(0, 100_000), // LCB
    Bounds::FromTo(0, 10_000), // KB
    Bounds::FromTo(0, 100_000), // BM
    METACENTRE,
    Bounds::FromTo(0, 1_600_000_000), // waterplane area
];

static HOPPER_WIDTHS: [Bounds; 1] = [Bounds::FromTo(0, 1_500)];

static INCLINING: [Bounds; INCLINING_WIDTH] = [
    DISPLACEMENT,
    METACENTRE,
    Bounds::FromTo(0, 10_240_000_000), // free surface
    Bounds::FromTo(500, 10_000), // pendulum
];

static SHIFT: [Bounds; SHIFT_WIDTH] = [
    Bounds::FromTo(1, 20_000), // weight
    Bounds::FromTo(1, 16_000), // distance
    Bounds::FromTo(1, 2_000), // deflection
];

static CROSS_CURVE: [Bounds; 1] = [Bounds::FromTo(0, 20_000)];

static HEIGHTS: [Bounds; 2] = [METACENTRE, METACENTRE];

// The records that tables are made of: a table's numbers have the ranges of its record, again and again.
#[derive(Clone, Copy, Debug, PartialEq, Eq)]
pub enum Record {
    Particulars,
    HalfBreadth,
    Item,
    Tank,
    Row,
    HopperWidth,
    InclinedShip,
    Shift,
    // KN at an angle.
    CrossCurve,
    // KM and KG.
    Heights,
}

impl Record {
    // The ranges of a record's numbers.
    pub fn bounds(self) -> &'static [Bounds]
        ensures ranges { map range_by result.now ≡ section_of self }
        ensures some { 0 < length result.now }
    {
        match self {
            Record::Particulars => &PARTICULARS,
            Record::HalfBreadth => &HALF_BREADTHS,
            Record::Item => &ITEM,
            Record::Tank => &TANK,
            Record::Row => &ROW,
            Record::HopperWidth => &HOPPER_WIDTHS,
            Record::InclinedShip => &INCLINING,
            Record::Shift => &SHIFT,
            Record::CrossCurve => &CROSS_CURVE,
            Record::Heights => &HEIGHTS,
        }
    }
}
