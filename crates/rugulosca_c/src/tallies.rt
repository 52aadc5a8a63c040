// The running tally, under its names in C.
ghost use Rattle.rugulosca.specs.Panel.{keeping, tally_from, kept_of, item_from, place_from};
ghost use Rattle.rugulosca.specs.Told.{Tells, TellsCondition};
ghost use Rattle.tally.specs.Condition.{condition_aboard};
ghost use Rattle.tally.specs.Steps.{loads, discharges, shifts};

use ranges::ITEM_WIDTH;
use rugulosca::conditions::{SIGNED_COUNT, WHOLE_COUNT};
use rugulosca::tallies::{PLACE_WIDTH, SLOT_ROOM, TOTAL_COUNT};

// Loads an item into an empty slot.
#[unsafe(no_mangle)]
pub extern "C" fn rugulosca_load(
    slots: &mut [i64; SLOT_ROOM],
    totals: &mut [u64; TOTAL_COUNT],
    transverse: &mut i64,
    slot: usize,
    item: &[i64; ITEM_WIDTH],
    place: &mut usize,
) -> u64
    ensures { Tells kept_of (loads slot (item_from item.now) (tally_from (keeping slots.old totals.old transverse.old))) (keeping slots.old totals.old transverse.old) (keeping slots.new totals.new transverse.new) place.old place.new result }
{
    rugulosca::tallies::rugulosca_load(slots, totals, transverse, slot, item, place)
}

// Discharges a slot.
#[unsafe(no_mangle)]
pub extern "C" fn rugulosca_discharge(
    slots: &mut [i64; SLOT_ROOM],
    totals: &mut [u64; TOTAL_COUNT],
    transverse: &mut i64,
    slot: usize,
    place: &mut usize,
) -> u64
    ensures { Tells kept_of (discharges slot (tally_from (keeping slots.old totals.old transverse.old))) (keeping slots.old totals.old transverse.old) (keeping slots.new totals.new transverse.new) place.old place.new result }
{
    rugulosca::tallies::rugulosca_discharge(slots, totals, transverse, slot, place)
}

// Shifts a slot's item to a new place.
#[unsafe(no_mangle)]
pub extern "C" fn rugulosca_shift(
    slots: &mut [i64; SLOT_ROOM],
    totals: &mut [u64; TOTAL_COUNT],
    transverse: &mut i64,
    slot: usize,
    to: &[i64; PLACE_WIDTH],
    place: &mut usize,
) -> u64
    ensures { Tells kept_of (shifts slot (place_from to.now) (tally_from (keeping slots.old totals.old transverse.old))) (keeping slots.old totals.old transverse.old) (keeping slots.new totals.new transverse.new) place.old place.new result }
{
    rugulosca::tallies::rugulosca_shift(slots, totals, transverse, slot, to, place)
}

// The condition of the items aboard and these tanks over the rows of a hull.
#[unsafe(no_mangle)]
pub extern "C" fn rugulosca_condition_aboard(
    slots: &[i64; SLOT_ROOM],
    totals: &[u64; TOTAL_COUNT],
    transverse: i64,
    tanks: &[i64],
    rows: &[u64],
    wholes: &mut [u64; WHOLE_COUNT],
    signed_numbers: &mut [i64; SIGNED_COUNT],
    tangent: &mut f64,
    place: &mut usize,
) -> u64
    ensures { TellsCondition (condition_aboard (tally_from (keeping slots.now totals.now transverse)) tanks.now rows.now) wholes.old wholes.new signed_numbers.old signed_numbers.new tangent.old tangent.new place.old place.new result }
{
    rugulosca::tallies::rugulosca_condition_aboard(
        slots,
        totals,
        transverse,
        tanks,
        rows,
        wholes,
        signed_numbers,
        tangent,
        place,
    )
}
