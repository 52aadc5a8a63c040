// Counts and numbers, read in order: each step moves the cursor on, or refuses.
// Those that read a section's numbers are in line, so that each section's loop has its ranges as constants: a fifth fewer instructions.
ghost use Rattle.std.specs.Prelude.{◌≡◌, ◌*◌, ◌≤◌, IfOk, length, map, nat_abs};
ghost use Rattle.ranges.specs.Outside.{numbers_of};
ghost use Rattle.ranges.specs.Bounds.{range_by, section_of};
ghost use Rattle.ranges.specs.Reasons.{number_of};
ghost use Rattle.offsets.specs.Private.Steps.{Step, one_by, count_by, numbers_by, section_by, particulars_by, front, Finishes};

use crate::tokens;
use crate::tokens::Found;
use ranges::{Bounds, Number, PARTICULAR_COUNT, Particulars, Reason, Record, Refusal};

// Where reading stands in a text.
#[derive(Clone, Copy)]
pub(crate) struct Cursor<'a> {
    pub text: &'a [u8],
    pub next: usize,
}

impl Cursor<'_> {
    // A number in a range; one out of it is refused for the reason.
    #[inline(always)]
    fn number(&mut self, bounds: Bounds, reason: Reason) -> Result<i64, Refusal>
        ensures { Step (one_by (number_of reason) (range_by bounds)) (λ v. v) self.old self.new result }
    {
        let Some(Found { at, number }) = tokens::next_token(self.text, self.next) else {
            return Err(Reason::EndsTooEarly.at(self.text.len()));
        };
        let Some(numeral) = number else {
            return Err(Reason::NotANumber.at(at));
        };
        if !numeral.value.is_within(bounds) {
            return Err(reason.at(at));
        }
        self.next = numeral.stop;
        Ok(numeral.value)
    }

    // A count from least to most.
    pub(crate) fn count(&mut self, least: usize, most: usize) -> Result<usize, Refusal>
        ensures reads { Step (count_by least most) (λ k. k) self.old self.new result }
        ensures bounded { IfOk result (λ k. (least ≤ k) × (k ≤ most)) }
    {
        let allowed = Bounds::FromTo(least as u64, most as u64);
        let count = self.number(allowed, Reason::CountNotAllowed)?;
        Ok(arithmetic::magnitude(count) as usize)
    }

    // The numbers of a table of records.
    #[inline(always)]
    fn numbers(&mut self, kind: Record, table: &mut [i64]) -> Result<(), Refusal>
        ensures { Step (numbers_by (section_of kind) (length table.old)) (λ ok. table.new) self.old self.new result }
    {
        let bounds = kind.bounds();
        // By the place, which chooses the range, too.
        for i in 0..table.len() {
            table[i] = self.number(bounds[i % bounds.len()], Reason::OutOfRange)?;
        }
        Ok(())
    }

    // A section: a count of records from least to most, and their numbers into the front of a table.
    #[inline(always)]
    pub(crate) fn section(
        &mut self,
        kind: Record,
        least: usize,
        most: usize,
        table: &mut [i64],
    ) -> Result<usize, Refusal>
        requires { length (section_of kind) * most ≤ length table.old }
        ensures reads { Step (section_by least most (section_of kind)) (front (section_of kind) table.new) self.old self.new result }
        ensures bounded { IfOk result (λ k. (least ≤ k) × (k ≤ most)) }
    {
        let count = self.count(least, most)?;
        let numbers = kind.bounds().len() * count;
        self.numbers(kind, &mut table[..numbers])?;
        Ok(count)
    }

    // The particulars: each in its range, and then their hull not too long, which is refused at s.
    pub(crate) fn particulars(&mut self) -> Result<Particulars, Refusal>
        ensures { Step particulars_by numbers_of self.old self.new result }
    {
        let start = self.next;
        let mut numbers = [0i64; PARTICULAR_COUNT];
        self.numbers(Record::Particulars, &mut numbers)?;
        let particulars = Particulars::from(sizes(numbers));
        if ranges::is_too_long(particulars) {
            let spacing = tokens::place_after(self.text, start, ranges::SPACING);
            return Err(Reason::OutOfRange.at(spacing.unwrap_or(self.text.len())));
        }
        Ok(particulars)
    }

    // Nothing may follow the last section.
    pub(crate) fn finish(&self) -> Result<(), Refusal>
        ensures { Finishes self.now result }
    {
        if let Some(found) = tokens::next_token(self.text, self.next) {
            return Err(Reason::TokenAfterEnd.at(found.at));
        }
        Ok(())
    }
}

// How far each of a hull's numbers is from 0.
fn sizes(numbers: [i64; PARTICULAR_COUNT]) -> [u64; PARTICULAR_COUNT]
    ensures { result ≡ map nat_abs numbers }
{
    numbers.map(arithmetic::magnitude)
}
