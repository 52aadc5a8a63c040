// The rows of a hull, and one row for display.
ghost use Rattle.std.specs.Prelude.{◌≡◌, map, pos, length};
ghost use Rattle.hydrostatics.specs.Display.{display_of};
ghost use Rattle.hydrostatics.specs.Promise.{count_of, table_after};
ghost use Rattle.hydrostatics.specs.Rows.{rows_of};
ghost use Rattle.hydrostatics.specs.Usable.{row_in};
ghost use Rattle.ranges.specs.Outside.{particulars_of};
ghost use Rattle.rugulosca.specs.Told.{Tells, figure_numbers};

use crate::told::tell;
use hydrostatics::{Figures, ROW_WIDTH, Row};
use ranges::{PARTICULAR_COUNT, Particulars};

// The rows of a hull, and how many there are.
pub fn rugulosca_rows(
    half_breadths: &[u64],
    particulars: &[u64; PARTICULAR_COUNT],
    rows: &mut [u64],
    count: &mut usize,
    place: &mut usize,
) -> u64
    ensures tells { Tells (λ n. n) (count_of (rows_of half_breadths.now (particulars_of (map pos particulars.now)) (length rows.old))) count.old count.new place.old place.new result }
    ensures rows_after { rows.new ≡ table_after (rows_of half_breadths.now (particulars_of (map pos particulars.now)) (length rows.old)) rows.old }
{
    let answer = hydrostatics::make_rows(half_breadths, Particulars::from(*particulars), rows);
    tell(answer, count, place)
}

// The same by the plain calculation: station areas first, and then along the length.
pub fn rugulosca_rows_by_sections(
    half_breadths: &[u64],
    particulars: &[u64; PARTICULAR_COUNT],
    rows: &mut [u64],
    count: &mut usize,
    place: &mut usize,
) -> u64
    ensures tells { Tells (λ n. n) (count_of (rows_of half_breadths.now (particulars_of (map pos particulars.now)) (length rows.old))) count.old count.new place.old place.new result }
    ensures rows_after { rows.new ≡ table_after (rows_of half_breadths.now (particulars_of (map pos particulars.now)) (length rows.old)) rows.old }
{
    let answer = hydrostatics::make_rows_by_sections(
        half_breadths,
        Particulars::from(*particulars),
        rows,
    );
    tell(answer, count, place)
}

// A displayed row's figures.
fn numbers_of(f: Figures) -> [f64; ROW_WIDTH]
    ensures { result ≡ figure_numbers f }
{
    [f.draft, f.displacement, f.lcb, f.kb, f.bm, f.km, f.area]
}

// One row in metres, tonnes and square metres.
pub fn rugulosca_display(
    row: &[u64; ROW_WIDTH],
    figures: &mut [f64; ROW_WIDTH],
    place: &mut usize,
) -> u64
    ensures { Tells figure_numbers (display_of (row_in row.now 0)) figures.old figures.new place.old place.new result }
{
    let answer = hydrostatics::display_row(Row::from(*row));
    tell(answer.map(numbers_of), figures, place)
}
