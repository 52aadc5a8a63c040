// The running tally. Its owner keeps five numbers a slot, three totals and the transverse moment, and lends them one by one: each is a
// pointer in C.
ghost use Rattle.std.specs.Prelude.{◌≡◌, ◌≤◌, pos};
ghost use Rattle.rugulosca.specs.Panel.{keeping, slots_from, tally_from, numbers_of, kept_of, item_from, place_from};
ghost use Rattle.rugulosca.specs.Private.Places.{slot_in, slot_room};
ghost use Rattle.rugulosca.specs.Told.{Tells, TellsCondition};
ghost use Rattle.tally.specs.Condition.{condition_aboard};
ghost use Rattle.tally.specs.Steps.{paper, loads, discharges, shifts};

use crate::conditions::{SIGNED_COUNT, WHOLE_COUNT, tell_condition};
use crate::told::tell;
use loading::Totals;
use ranges::ITEM_WIDTH;
use tally::{Item, Place, SLOTS, Slot, Stepped, Tally};

// How many numbers a slot has, whether it is filled and its item's, and how many all slots have.
const SLOT_WIDTH: usize = 1 + ITEM_WIDTH;

pub const SLOT_ROOM: usize = SLOT_WIDTH * SLOTS;

// How many totals have no sign.
pub const TOTAL_COUNT: usize = 3;

// How many numbers a place has.
pub const PLACE_WIDTH: usize = 3;

// The slot whose numbers stand at place `at`.
fn slot_in(numbers: &[i64], at: usize) -> Slot
    requires { at ≤ slot_room }
    ensures { result ≡ slot_in numbers.now at }
{
    let filled = arithmetic::size_at(numbers, at) != 0;
    let kg = arithmetic::number_at(numbers, at + 1);
    let x = arithmetic::number_at(numbers, at + 2);
    let y = arithmetic::number_at(numbers, at + 3);
    let z = arithmetic::number_at(numbers, at + 4);
    Slot {
        filled,
        item: Item { kg, x, y, z },
    }
}

// The slots that these numbers make. `array::from_fn` was tried, and its proof did not close: a turn tells of the closure as it was at
// that turn, and not of the numbers that are lent to it.
fn slots_from(numbers: [i64; SLOT_ROOM]) -> [Slot; SLOTS]
    ensures { result ≡ slots_from numbers }
{
    let none = tally::empty();
    let mut slots = none.slots;
    for i in 0..SLOTS {
        slots[i] = slot_in(&numbers, SLOT_WIDTH * i);
    }
    slots
}

// The tally that these numbers make.
fn tally_from(slots: [i64; SLOT_ROOM], totals: [u64; TOTAL_COUNT], transverse: i64) -> Tally
    ensures { result ≡ tally_from (keeping slots totals transverse) }
{
    let slots = slots_from(slots);
    Tally {
        slots,
        totals: Totals {
            weight: totals[0],
            longitudinal: totals[1],
            vertical: totals[2],
            transverse,
        },
    }
}

// Four numbers as an item.
fn item_from(four: &[i64; ITEM_WIDTH]) -> Item
    ensures { result ≡ item_from four.now }
{
    Item {
        kg: four[0],
        x: four[1],
        y: four[2],
        z: four[3],
    }
}

// Three numbers as a place.
fn place_from(three: &[i64; PLACE_WIDTH]) -> Place
    ensures { result ≡ place_from three.now }
{
    Place {
        x: three[0],
        y: three[1],
        z: three[2],
    }
}

// The numbers of all slots.
fn numbers_of(slots: [Slot; SLOTS]) -> [i64; SLOT_ROOM]
    ensures { result ≡ numbers_of slots }
{
    let mut numbers = [0i64; SLOT_ROOM];
    for (i, slot) in slots.iter().enumerate() {
        let at = SLOT_WIDTH * i;
        let item = slot.item;
        numbers[at] = i64::from(slot.filled);
        numbers[at + 1] = item.kg;
        numbers[at + 2] = item.x;
        numbers[at + 3] = item.y;
        numbers[at + 4] = item.z;
    }
    numbers
}

// Leaves the tally after a step, or the refusal's place.
fn tell_step(
    stepped: Stepped,
    slots: &mut [i64; SLOT_ROOM],
    totals: &mut [u64; TOTAL_COUNT],
    transverse: &mut i64,
    place: &mut usize,
) -> u64
    ensures { Tells kept_of (paper stepped) (keeping slots.old totals.old transverse.old) (keeping slots.new totals.new transverse.new) place.old place.new result }
{
    if let Ok(()) = stepped.answer {
        let totals_after = stepped.tally.totals;
        *slots = numbers_of(stepped.tally.slots);
        *totals = [
            totals_after.weight,
            totals_after.longitudinal,
            totals_after.vertical,
        ];
        *transverse = totals_after.transverse;
    }
    tell(stepped.answer, &mut (), place)
}

// Loads an item into an empty slot.
pub fn rugulosca_load(
    slots: &mut [i64; SLOT_ROOM],
    totals: &mut [u64; TOTAL_COUNT],
    transverse: &mut i64,
    slot: usize,
    item: &[i64; ITEM_WIDTH],
    place: &mut usize,
) -> u64
    ensures { Tells kept_of (loads slot (item_from item.now) (tally_from (keeping slots.old totals.old transverse.old))) (keeping slots.old totals.old transverse.old) (keeping slots.new totals.new transverse.new) place.old place.new result }
{
    let before = tally_from(*slots, *totals, *transverse);
    let stepped = tally::loaded(before, slot, item_from(item));
    tell_step(stepped, slots, totals, transverse, place)
}

// Discharges a slot.
pub fn rugulosca_discharge(
    slots: &mut [i64; SLOT_ROOM],
    totals: &mut [u64; TOTAL_COUNT],
    transverse: &mut i64,
    slot: usize,
    place: &mut usize,
) -> u64
    ensures { Tells kept_of (discharges slot (tally_from (keeping slots.old totals.old transverse.old))) (keeping slots.old totals.old transverse.old) (keeping slots.new totals.new transverse.new) place.old place.new result }
{
    let before = tally_from(*slots, *totals, *transverse);
    let stepped = tally::discharged(before, slot);
    tell_step(stepped, slots, totals, transverse, place)
}

// Shifts a slot's item to a new place.
pub fn rugulosca_shift(
    slots: &mut [i64; SLOT_ROOM],
    totals: &mut [u64; TOTAL_COUNT],
    transverse: &mut i64,
    slot: usize,
    to: &[i64; PLACE_WIDTH],
    place: &mut usize,
) -> u64
    ensures { Tells kept_of (shifts slot (place_from to.now) (tally_from (keeping slots.old totals.old transverse.old))) (keeping slots.old totals.old transverse.old) (keeping slots.new totals.new transverse.new) place.old place.new result }
{
    let before = tally_from(*slots, *totals, *transverse);
    let stepped = tally::shifted(before, slot, place_from(to));
    tell_step(stepped, slots, totals, transverse, place)
}

// The condition of the items aboard and these tanks over the rows of a hull.
pub fn rugulosca_condition_aboard(
    slots: &[i64; SLOT_ROOM],
    totals: &[u64; TOTAL_COUNT],
    transverse: i64,
    tanks: &[i64],
    rows: &[u64],
    wholes: &mut [u64; WHOLE_COUNT],
    signed_numbers: &mut [i64; SIGNED_COUNT],
    tangent: &mut f64,
    place: &mut usize,
) -> u64
    ensures { TellsCondition (condition_aboard (tally_from (keeping slots.now totals.now transverse)) tanks.now rows.now) wholes.old wholes.new signed_numbers.old signed_numbers.new tangent.old tangent.new place.old place.new result }
{
    let aboard = tally_from(*slots, *totals, transverse);
    let answer = tally::condition_of(aboard, tanks, rows);
    tell_condition(answer, wholes, signed_numbers, tangent, place)
}
