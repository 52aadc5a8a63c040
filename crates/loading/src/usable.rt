// Whether a lent table of rows is usable, row by row.
ghost use Rattle.std.specs.Prelude.{◌≡◌, ◌+◌, ◌*◌, ◌<◌, ◌≤◌, length, true};
ghost use Rattle.hydrostatics.specs.Usable.{usable_row, usable_up_to};
ghost use Rattle.loading.specs.Private.Afloat.{spaced_from, row_before, rises_after, fits_metacentre, usable_but_for, count_of};
ghost use Rattle.loading.specs.Condition.{rows_allowed};
ghost use Rattle.ranges.specs.Fields.{most};
ghost use Rattle.ranges.specs.Private.InRange.{row_range};
ghost use Rattle.ranges.specs.Sizes.{row_width, most_rows};

use crate::rows;
use hydrostatics::{ROW_WIDTH, Row};
use ranges::Number;

// Row r has draft (r + 2)·g, with g half of row 0's draft, whole and in the range of a distance between waterlines.
fn is_spaced(first: Row, row: Row, r: usize) -> bool
    requires { r < most_rows }
    ensures { result ≡ spaced_from first row r }
{
    let spacing = first.draft / 2;
    2 * spacing == first.draft
        && spacing.is_within(ranges::WATERLINE_SPACING)
        && row.draft == (r as u64 + 2) * spacing
}

// KB + BM is KM or KM less one.
fn metacentre_fits(row: Row) -> bool
    requires { (row.kb ≤ most (row_range 3)) × (row.bm ≤ most (row_range 4)) }
    ensures { result ≡ fits_metacentre row }
{
    row.kb + row.bm == row.km || row.kb + row.bm + 1 == row.km
}

// The row before row r, which row 0 has not.
fn row_before(numbers: &[u64], r: usize) -> Option<Row>
    requires { row_width * r ≤ length numbers.now }
    ensures { result ≡ row_before numbers.now r }
{
    if r == 0 {
        return None;
    }
    Some(rows::row_in(numbers, r - 1))
}

// A row displaces more than the row before it, if there is one.
fn is_rising(before: Option<Row>, row: Row) -> bool
    ensures { result ≡ rises_after before row }
{
    match before {
        Some(before) => before.displacement < row.displacement,
        None => true,
    }
}

// Whether row r of a table is usable.
fn is_usable(numbers: &[u64], r: usize) -> bool
    requires { (r < most_rows) × (row_width * r + row_width ≤ length numbers.now) }
    ensures { result ≡ usable_row numbers.now r }
{
    let row = rows::row_in(numbers, r);
    if hydrostatics::row_outside(row).is_some() {
        return false;
    }
    let first = rows::row_in(numbers, 0);
    let before = row_before(numbers, r);
    is_spaced(first, row, r) && is_rising(before, row) && metacentre_fits(row)
}

// The first row that is not usable.
pub(crate) fn first_unusable(numbers: &[u64]) -> Option<usize>
    requires { rows_allowed (length numbers.now) ≡ true }
    ensures { usable_but_for (count_of numbers.now) result ≡ usable_up_to numbers.now (count_of numbers.now) }
{
    for r in 0..numbers.len() / ROW_WIDTH {
        if !is_usable(numbers, r) {
            return Some(r);
        }
    }
    None
}
