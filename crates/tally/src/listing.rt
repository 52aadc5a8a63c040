// The items aboard as a table of items, and the totals of it.
ghost use Rattle.std.specs.Prelude.{◌≡◌};
ghost use Rattle.ranges.specs.Reasons.{paper};
ghost use Rattle.loading.specs.Items.{item_totals};
ghost use Rattle.tally.specs.Private.Listing.{Lists, Fitting};
ghost use Rattle.tally.specs.Private.Trying.{Tried};
ghost use Rattle.tally.specs.Steps.{with_slot};
ghost use Rattle.tally.specs.Tally.{aboard, table_of, sound};

use crate::listed::Listed;
use crate::{Item, SLOTS, Slot, Tally};
use loading::Totals;
use ranges::{Reason, Refusal};

// The items of the filled slots, one after another.
pub(crate) fn items_aboard(slots: &[Slot; SLOTS]) -> Listed
    ensures { Lists slots.now result }
{
    let mut numbers = [0i64; ranges::ITEM_ROOM];
    // The place is counted by hand: only a filled slot takes one.
    let mut count = 0;
    for slot in slots {
        if !slot.filled {
            continue;
        }
        let item = slot.item;
        numbers[count] = item.kg;
        numbers[count + 1] = item.x;
        numbers[count + 2] = item.y;
        numbers[count + 3] = item.z;
        count += ranges::ITEM_WIDTH;
    }
    Listed { numbers, count }
}

// The totals of the items aboard, or the refusal of one out of range.
fn added_up(slots: &[Slot; SLOTS]) -> Result<Totals, Refusal>
    ensures { paper result ≡ item_totals (table_of (aboard slots.now)) }
{
    let listed = items_aboard(slots);
    loading::item_totals(listed.items())
}

impl Tally {
    // Whether the items aboard are in range, and the totals theirs.
    pub(crate) fn is_sound(&self) -> bool
        ensures { result ≡ sound self.now }
    {
        match added_up(&self.slots) {
            Ok(of_items) => self.totals == of_items,
            Err(_) => false,
        }
    }

    // The tests that a step begins with, in the paper's order.
    pub(crate) fn tried(&self, item: Item, slot: usize) -> Result<(), Refusal>
        ensures { Tried self.now item slot result }
    {
        if !self.is_sound() {
            return Err(Reason::TallyUnsound.at(0));
        }
        if let Some(place) = item.first_outside() {
            return Err(Reason::OutOfRange.at(place));
        }
        if SLOTS <= slot {
            return Err(Reason::NoSuchSlot.at(slot));
        }
        Ok(())
    }

    // Changes a slot's content, and the totals to those of the items then aboard.
    pub(crate) fn put(&mut self, slot: usize, content: Slot)
        requires { Fitting self.old slot content }
        ensures { self.new ≡ with_slot self.old slot content }
    {
        self.slots[slot] = content;
        // No item aboard is out of range.
        self.totals = added_up(&self.slots).unwrap();
    }
}
