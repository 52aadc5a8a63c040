// The paper's refusals.
ghost use Rattle.std.specs.Prelude.{◌≡◌};
ghost use Rattle.ranges.specs.Reasons.{number_of};

use crate::PARTICULAR_COUNT;

// Why something is refused, each with its number in the paper.
#[derive(Clone, Copy, Debug, PartialEq, Eq)]
pub enum Reason {
    FileTooLong = 1,
    NotANumber = 2,
    CountNotAllowed = 3,
    OutOfRange = 4,
    EndsTooEarly = 5,
    TokenAfterEnd = 6,
    WrongSize = 7,
    DisplacementNotRising = 8,
    MetacentreTooHigh = 9,
    RowsNotUsable = 10,
    TooLight = 11,
    TooHeavy = 12,
    ContentsAboveCapacity = 13,
    RoomTooShort = 14,
    NoSuchSlot = 15,
    SlotTaken = 16,
    SlotEmpty = 17,
    NoLightWeight = 20,
    LightMomentNegative = 21,
    TallyUnsound = 22,
}

impl Reason {
    // The paper's number.
    pub fn number(self) -> u64
        ensures { result ≡ number_of self }
    {
        self as u64
    }

    // The refusal for this reason, at a place.
    pub fn at(self, place: usize) -> Refusal
        ensures { result ≡ record { reason = self; place = place } }
    {
        Refusal {
            reason: self,
            place,
        }
    }
}

// A refusal: why, and at which place.
#[derive(Clone, Copy, Debug, PartialEq, Eq)]
pub struct Refusal {
    pub reason: Reason,
    pub place: usize,
}

impl Refusal {
    // Where the places of each table's numbers begin; the particulars' begin at 0.
    pub const HALF_BREADTHS_AT: usize = PARTICULAR_COUNT;

    pub const ITEMS_AT: usize = 3_000;

    pub const TANKS_AT: usize = 4_000;

    // The tables, as the places of a wrong size: numbers, since a place of the paper is one.
    pub const HALF_BREADTH_TABLE: usize = 0;

    pub const ITEM_TABLE: usize = 1;

    pub const TANK_TABLE: usize = 2;

    pub const ROW_TABLE: usize = 3;
}
