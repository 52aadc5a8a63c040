// A file that can be written.
ghost use Rattle.std.specs.Prelude.{◌≤◌, length, IfOk, IfErr};
ghost use Rattle.writer.specs.Longest.{longest_text};
ghost use Rattle.writer.specs.Private.Putting.{Passes, RefusedAs};

use crate::LONGEST_TEXT;
use crate::lines::put_table;
use numerals::Lines;
use ranges::{Particulars, Reason, Record, Refusal};

// Particulars and tables that pass every test of the writer but that of its room.
#[derive(Drop)]
pub(crate) struct File<'a> {
    particulars: Particulars,
    half_breadths: &'a [u64],
    items: &'a [i64],
    tanks: &'a [i64],
    ghost passes: { Passes particulars half_breadths.now items.now tanks.now },
}

impl<'a> File<'a> {
    ghost use Rattle.numerals.specs.Pieces.{Puts, HasRoom, InFront};
    ghost use Rattle.writer.specs.Private.Files.{IsOf, text_in, WritesFile};

    // The file of particulars and tables, or why there is none. They come as the public call is given them, which C lends one by one.
    pub(crate) fn of(
        p: Particulars,
        half_breadths: &'a [u64],
        items: &'a [i64],
        tanks: &'a [i64],
    ) -> Result<File<'a>, Refusal>
        ensures file { IfOk result (IsOf p half_breadths.now items.now tanks.now) }
        ensures refused { IfErr result (RefusedAs p half_breadths.now items.now tanks.now) }
    {
        // Loading and hydrostatics make some of these tests too, in orders of their own: each is two names and a place.
        if let Some(place) = ranges::bad_particular(p) {
            return Err(Reason::OutOfRange.at(place));
        }
        if half_breadths.len() != (p.n + 1) * (p.m + 1) {
            return Err(Reason::WrongSize.at(Refusal::HALF_BREADTH_TABLE));
        }
        if !ranges::items_fit(items.len()) {
            return Err(Reason::WrongSize.at(Refusal::ITEM_TABLE));
        }
        if !ranges::tanks_fit(tanks.len()) {
            return Err(Reason::WrongSize.at(Refusal::TANK_TABLE));
        }
        if let Some(place) = ranges::first_outside(half_breadths, Record::HalfBreadth) {
            return Err(Reason::OutOfRange.at(Refusal::HALF_BREADTHS_AT + place));
        }
        if let Some(place) = ranges::first_outside(items, Record::Item) {
            return Err(Reason::OutOfRange.at(Refusal::ITEMS_AT + place));
        }
        if let Some(place) = ranges::first_outside(tanks, Record::Tank) {
            return Err(Reason::OutOfRange.at(Refusal::TANKS_AT + place));
        }
        Ok(File {
            particulars: p,
            half_breadths,
            items,
            tanks,
        })
    }

    // Writes the text into the lent room, where it fits.
    pub(crate) fn write(&self, room: &mut [u8]) -> Result<usize, Refusal>
        ensures { WritesFile self.now room.old room.new result }
    {
        // Room that holds any text takes it as it is made.
        if LONGEST_TEXT <= room.len() {
            return Ok(self.put_whole(room));
        }
        self.write_apart(room)
    }

    // The same by a text of its own, which is copied where it fits: an array, since nothing is allocated. The sheet's call does
    // so too; one function for both would need the array's length, a closure that puts the text and what it promises in a clause of its
    // own, for a test and a copy.
    fn write_apart(&self, room: &mut [u8]) -> Result<usize, Refusal>
        ensures { WritesFile self.now room.old room.new result }
    {
        let mut text = [0u8; LONGEST_TEXT];
        let count = self.put_whole(&mut text);
        if room.len() < count {
            return Err(Reason::RoomTooShort.at(count));
        }
        room[..count].copy_from_slice(&text[..count]);
        Ok(count)
    }

    // Puts the whole text in front of room for any, and answers its length.
    fn put_whole(&self, room: &mut [u8]) -> usize
        requires { longest_text ≤ length room.old }
        ensures { InFront (text_in self.now) room.old room.new result }
    {
        let mut to = Lines::over(room);
        self.put(&mut to);
        to.len()
    }

    // Puts the particulars, and then the half-breadths, a line for each station, the items and the tanks.
    fn put(&self, to: &mut Lines<'_>)
        requires { HasRoom (length (text_in self.now)) to.old }
        ensures { Puts (text_in self.now) to.old to.new }
    {
        // The particulars are a table of one line.
        let particulars = self.particulars.numbers();
        let waterlines = self.particulars.m + 1;
        let items = self.items.len() / ranges::ITEM_WIDTH;
        let tanks = self.tanks.len() / ranges::TANK_WIDTH;
        put_table(
            to,
            ranges::PARTICULAR_COUNT,
            &particulars,
            ranges::PARTICULAR_COUNT,
        );
        put_table(to, self.half_breadths.len(), self.half_breadths, waterlines);
        put_table(to, items, self.items, ranges::ITEM_WIDTH);
        put_table(to, tanks, self.tanks, ranges::TANK_WIDTH);
    }
}
