// The rows of a lent table, and a whole table of them that is usable.
ghost use Rattle.std.specs.Prelude.{◌≡◌, ◌+◌, ◌*◌, ◌<◌, ◌≤◌, true, length};
ghost use Rattle.hydrostatics.specs.Usable.{row_in};
ghost use Rattle.loading.specs.Private.Afloat.{is_answered, rows_tried, count_of};
ghost use Rattle.ranges.specs.Sizes.{row_width};

use crate::{rows_allowed, usable};
use hydrostatics::{ROW_WIDTH, Row};
use ranges::{Reason, Refusal};

// Row r of a lent table.
#[tactic(auto, unfolding(hydrostatics::specs::Usable::row_in))]
pub(crate) fn row_in(numbers: &[u64], r: usize) -> Row
    requires { row_width * r + row_width ≤ length numbers.now }
    ensures { result ≡ row_in numbers.now r }
{
    let at = ROW_WIDTH * r;
    Row::from([
        numbers[at],
        numbers[at + 1],
        numbers[at + 2],
        numbers[at + 3],
        numbers[at + 4],
        numbers[at + 5],
        numbers[at + 6],
    ])
}

// 2 to 19 rows of a lent table, all usable.
#[derive(Clone, Copy)]
pub(crate) struct Rows<'a> {
    numbers: &'a [u64],
    ghost usable: { is_answered (rows_tried numbers.now) ≡ true },
}

impl<'a> Rows<'a> {
    ghost use Rattle.std.specs.Prelude.{MatchResult};
    ghost use Rattle.ranges.specs.Outcome.{refused};
    ghost use Rattle.ranges.specs.Reasons.{number_of};

    // The rows of a lent table: refused by its size, and then at the first row that is not usable.
    pub(crate) fn of(numbers: &'a [u64]) -> Result<Rows<'a>, Refusal>
        ensures { MatchResult result (λ rows. rows.numbers.now ≡ numbers.now) (λ refusal. refused (number_of refusal.reason) refusal.place ≡ rows_tried numbers.now) }
    {
        if !rows_allowed(numbers.len()) {
            return Err(Reason::WrongSize.at(Refusal::ROW_TABLE));
        }
        if let Some(place) = usable::first_unusable(numbers) {
            return Err(Reason::RowsNotUsable.at(place));
        }
        Ok(Rows { numbers })
    }

    // How many there are.
    pub(crate) fn count(self) -> usize
        ensures { result ≡ count_of self.entry.numbers.now }
    {
        self.numbers.len() / ROW_WIDTH
    }

    // Row r of them.
    pub(crate) fn row(self, r: usize) -> Row
        requires { r < count_of self.numbers.now }
        ensures { result ≡ row_in self.entry.numbers.now r }
    {
        row_in(self.numbers, r)
    }

    // Its displacement alone.
    #[tactic(auto, unfolding(hydrostatics::specs::Usable::row_in))]
    pub(crate) fn displacement(self, r: usize) -> u64
        requires { r < count_of self.numbers.now }
        ensures { result ≡ (row_in self.entry.numbers.now r).displacement }
    {
        self.numbers[ROW_WIDTH * r + 1]
    }
}
