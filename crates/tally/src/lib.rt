// The running tally: 32 slots, each empty or with an item, and the totals of what is aboard.
// A step changes a lent tally where it stands, or takes one by value and hands it back beside its answer; a refused step changes nothing.
#![tactic(auto)]

ghost use Rattle.std.specs.Prelude.{◌≡◌};
ghost use Rattle.ranges.specs.Bounds.{place_in};
ghost use Rattle.ranges.specs.Reasons.{paper};
ghost use Rattle.ranges.specs.Sizes.{item_width};
ghost use Rattle.tally.specs.Condition.{condition_aboard};
ghost use Rattle.tally.specs.Steps.{moved_to, HandsBack, loads, discharges, shifts};
ghost use Rattle.tally.specs.Tally.{empty, outside};

use loading::{Condition, Totals};
use ranges::{Reason, Record, Refusal};

mod listed;
mod listing;

// kg, and x, y and z in mm, of any sign and size: the steps try them.
#[derive(Clone, Copy, Debug, PartialEq, Eq)]
pub struct Item {
    pub kg: i64,
    pub x: i64,
    pub y: i64,
    pub z: i64,
}

// Where an item stands, mm.
#[derive(Clone, Copy, Debug, PartialEq, Eq)]
pub struct Place {
    pub x: i64,
    pub y: i64,
    pub z: i64,
}

// A slot. A flag beside the item and not an `Option` of it: an empty slot that is lent with numbers in it keeps them through a step, as
// `kept_of` in the clauses of rugulosca_load, rugulosca_discharge and rugulosca_shift says.
#[derive(Clone, Copy, Debug, PartialEq, Eq)]
pub struct Slot {
    pub filled: bool,
    pub item: Item,
}

// How many slots a tally has.
pub const SLOTS: usize = 32;

// The slots, and the totals of what is aboard.
#[derive(Clone, Copy, Debug, PartialEq, Eq)]
pub struct Tally {
    pub slots: [Slot; SLOTS],
    pub totals: Totals,
}

// What a step hands back: its answer, and the tally after it.
#[derive(Clone, Copy, Debug, PartialEq, Eq)]
pub struct Stepped {
    pub answer: Result<(), Refusal>,
    pub tally: Tally,
}

impl Item {
    // What a freed slot holds. By name, and no `Default`, since `freed` of specs/ names it.
    const NONE: Item = Item {
        kg: 0,
        x: 0,
        y: 0,
        z: 0,
    };

    // The item at a new place.
    fn moved_to(self, place: Place) -> Item
        ensures { result ≡ moved_to place self }
    {
        Item {
            kg: self.kg,
            x: place.x,
            y: place.y,
            z: place.z,
        }
    }

    // The place of the first of its numbers out of range.
    fn first_outside(self) -> Option<usize>
        ensures { result ≡ place_in item_width (outside self) }
    {
        ranges::first_outside(&[self.kg, self.x, self.y, self.z], Record::Item)
    }
}

impl Slot {
    const FREED: Slot = Slot {
        filled: false,
        item: Item::NONE,
    };
}

// A tally with nothing aboard.
pub fn empty() -> Tally
    ensures { result ≡ empty }
{
    Tally {
        slots: [Slot::FREED; SLOTS],
        totals: Totals {
            weight: 0,
            longitudinal: 0,
            vertical: 0,
            transverse: 0,
        },
    }
}

// Loads an item into an empty slot.
pub fn load(tally: &mut Tally, slot: usize, item: Item) -> Result<(), Refusal>
    ensures { HandsBack tally.old (loads slot item tally.old) (record { answer = result; tally = tally.new }) }
{
    tally.tried(item, slot)?;
    let was = tally.slots[slot];
    if was.filled {
        return Err(Reason::SlotTaken.at(slot));
    }
    tally.put(slot, Slot { filled: true, item });
    Ok(())
}

// Discharges a slot, which holds zeros then: the order has no item, and zeros are in range.
pub fn discharge(tally: &mut Tally, slot: usize) -> Result<(), Refusal>
    ensures { HandsBack tally.old (discharges slot tally.old) (record { answer = result; tally = tally.new }) }
{
    tally.tried(Item::NONE, slot)?;
    let was = tally.slots[slot];
    if !was.filled {
        return Err(Reason::SlotEmpty.at(slot));
    }
    tally.put(slot, Slot::FREED);
    Ok(())
}

// Shifts a slot's item to a new place.
pub fn shift(tally: &mut Tally, slot: usize, place: Place) -> Result<(), Refusal>
    ensures { HandsBack tally.old (shifts slot place tally.old) (record { answer = result; tally = tally.new }) }
{
    tally.tried(Item::NONE.moved_to(place), slot)?;
    let was = tally.slots[slot];
    if !was.filled {
        return Err(Reason::SlotEmpty.at(slot));
    }
    let item = was.item.moved_to(place);
    tally.put(slot, Slot { filled: true, item });
    Ok(())
}

// The same steps by value, since both forms are promised: each lends its tally to the step of its name, and hands it back.

pub fn loaded(mut tally: Tally, slot: usize, item: Item) -> Stepped
    ensures { HandsBack tally (loads slot item tally) result }
{
    let answer = load(&mut tally, slot, item);
    Stepped { answer, tally }
}

pub fn discharged(mut tally: Tally, slot: usize) -> Stepped
    ensures { HandsBack tally (discharges slot tally) result }
{
    let answer = discharge(&mut tally, slot);
    Stepped { answer, tally }
}

pub fn shifted(mut tally: Tally, slot: usize, place: Place) -> Stepped
    ensures { HandsBack tally (shifts slot place tally) result }
{
    let answer = shift(&mut tally, slot, place);
    Stepped { answer, tally }
}

// The condition of the items aboard and these tanks over the rows of a hull.
pub fn condition_of(tally: Tally, tanks: &[i64], rows: &[u64]) -> Result<Condition, Refusal>
    ensures { paper result ≡ condition_aboard tally tanks.now rows.now }
{
    if !tally.is_sound() {
        return Err(Reason::TallyUnsound.at(0));
    }
    let listed = listing::items_aboard(&tally.slots);
    loading::condition_of(listed.items(), tanks, rows)
}
