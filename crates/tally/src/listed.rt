// A table of items with room for those of all slots, of which the front counts.
ghost use Rattle.std.specs.Prelude.{◌≤◌};
ghost use Rattle.ranges.specs.Sizes.{room_for_items};

// The crate allocates nothing, so that the numbers stand in an array with their count beside it; callers see the front alone.
#[derive(Clone, Copy)]
pub(crate) struct Listed {
    pub(crate) numbers: [i64; ranges::ITEM_ROOM],
    pub(crate) count: usize,
    ghost few: { count ≤ room_for_items },
}

impl Listed {
    ghost use Rattle.std.specs.Prelude.{◌≡◌, take};

    // The numbers that count.
    pub(crate) fn items(&self) -> &[i64]
        ensures { result.now ≡ take self.now.count self.now.numbers }
    {
        &self.numbers[..self.count]
    }
}
