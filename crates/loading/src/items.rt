// What the items bring aboard.
ghost use Rattle.std.specs.Prelude.{◌≡◌, ◌≤◌, length};
ghost use Rattle.loading.specs.Private.Aboard.{Brought, ItemsFit, most_in_items, altogether, of_item, items_tried};
ghost use Rattle.loading.specs.Records.{items_of};
ghost use Rattle.ranges.specs.Reasons.{paper};
ghost use Rattle.ranges.specs.Sizes.{room_for_items};

use crate::Aboard;
use crate::weights::Weight;
use ranges::{ITEM_WIDTH, Reason, Record, Refusal};

// Each number of a table of items against its range.
pub(crate) fn try_ranges(items: &[i64]) -> Result<(), Refusal>
    requires { length items.now ≤ room_for_items }
    ensures { paper result ≡ items_tried items.now }
{
    match ranges::first_outside(items, Record::Item) {
        Some(place) => Err(Reason::OutOfRange.at(Refusal::ITEMS_AT + place)),
        None => Ok(()),
    }
}

// All items of a table together.
pub(crate) fn items_aboard(items: &[i64]) -> Aboard
    requires { ItemsFit items.now }
    ensures { Brought most_in_items 0 (altogether of_item (items_of items.now)) result }
{
    let (records, _) = items.as_chunks::<ITEM_WIDTH>();
    let mut all = Aboard::default();
    for numbers in records {
        all = all + Weight::of_item(numbers).aboard(0);
    }
    all
}
