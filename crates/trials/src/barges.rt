// What an offset file says: its hull, its items and its tanks.
ghost use Rattle.std.specs.Prelude.{◌≤◌};
ghost use Rattle.ranges.specs.Sizes.{room_for_half_breadths};

use ranges::Particulars;

// Room for the tables of any file.
#[derive(Drop)]
pub(crate) struct Room {
    half_breadths: [u64; ranges::HALF_BREADTH_ROOM],
    items: [i64; ranges::ITEM_ROOM],
    tanks: [i64; ranges::TANK_ROOM],
}

#[derive(Clone, Copy, PartialEq)]
pub(crate) struct Barge<'a> {
    pub(crate) particulars: Particulars,
    pub(crate) half_breadths: &'a [u64],
    pub(crate) items: &'a [i64],
    pub(crate) tanks: &'a [i64],
}

impl Room {
    pub(crate) fn new() -> Room {
        Room {
            half_breadths: [0; ranges::HALF_BREADTH_ROOM],
            items: [0; ranges::ITEM_ROOM],
            tanks: [0; ranges::TANK_ROOM],
        }
    }

    // Reads a text; None where the reader refuses it.
    pub(crate) fn read(&mut self, text: &[u8]) -> Option<Barge<'_>> {
        let summary = offsets::read_file(
            text,
            &mut self.half_breadths,
            &mut self.items,
            &mut self.tanks,
        )
        .ok()?;
        let particulars = summary.particulars;
        let items = summary.items.min(ranges::MOST_ITEMS) * ranges::ITEM_WIDTH;
        let tanks = summary.tanks.min(ranges::MOST_TANKS) * ranges::TANK_WIDTH;
        Some(Barge {
            particulars,
            half_breadths: &self.half_breadths[..points_of(particulars)],
            items: &self.items[..items],
            tanks: &self.tanks[..tanks],
        })
    }
}

impl Barge<'_> {
    // Whether what is written of it is read as the same again.
    pub(crate) fn comes_back(self) -> bool {
        let mut text = [0u8; ranges::LONGEST_FILE];
        let Ok(count) = writer::write_file(
            self.particulars,
            self.half_breadths,
            self.items,
            self.tanks,
            &mut text,
        ) else {
            return false;
        };
        let mut room = Room::new();
        let again = text.get(..count).and_then(|text| room.read(text));
        again.is_some_and(|barge| barge == self)
    }
}

// How many half-breadths a hull has, and no more than there is room for.
fn points_of(p: Particulars) -> usize
    ensures { result ≤ room_for_half_breadths }
{
    let stations = p.n.min(ranges::HALF_BREADTH_ROOM) + 1;
    let waterlines = p.m.min(ranges::HALF_BREADTH_ROOM) + 1;
    (stations * waterlines).min(ranges::HALF_BREADTH_ROOM)
}
