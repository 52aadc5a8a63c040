// The rows of a hull, and one row for display, under their names in C.
ghost use Rattle.std.specs.Prelude.{◌≡◌, map, pos, length};
ghost use Rattle.hydrostatics.specs.Display.{display_of};
ghost use Rattle.hydrostatics.specs.Promise.{count_of, table_after};
ghost use Rattle.hydrostatics.specs.Rows.{rows_of};
ghost use Rattle.hydrostatics.specs.Usable.{row_in};
ghost use Rattle.ranges.specs.Outside.{particulars_of};
ghost use Rattle.rugulosca.specs.Told.{Tells, figure_numbers};

use hydrostatics::ROW_WIDTH;
use ranges::PARTICULAR_COUNT;

// The rows of a hull, and how many there are.
#[unsafe(no_mangle)]
pub extern "C" fn rugulosca_rows(
    half_breadths: &[u64],
    particulars: &[u64; PARTICULAR_COUNT],
    rows: &mut [u64],
    count: &mut usize,
    place: &mut usize,
) -> u64
    ensures tells { Tells (λ n. n) (count_of (rows_of half_breadths.now (particulars_of (map pos particulars.now)) (length rows.old))) count.old count.new place.old place.new result }
    ensures rows_after { rows.new ≡ table_after (rows_of half_breadths.now (particulars_of (map pos particulars.now)) (length rows.old)) rows.old }
{
    rugulosca::hulls::rugulosca_rows(half_breadths, particulars, rows, count, place)
}

// The same by the plain calculation: station areas first, and then along the length.
#[unsafe(no_mangle)]
pub extern "C" fn rugulosca_rows_by_sections(
    half_breadths: &[u64],
    particulars: &[u64; PARTICULAR_COUNT],
    rows: &mut [u64],
    count: &mut usize,
    place: &mut usize,
) -> u64
    ensures tells { Tells (λ n. n) (count_of (rows_of half_breadths.now (particulars_of (map pos particulars.now)) (length rows.old))) count.old count.new place.old place.new result }
    ensures rows_after { rows.new ≡ table_after (rows_of half_breadths.now (particulars_of (map pos particulars.now)) (length rows.old)) rows.old }
{
    rugulosca::hulls::rugulosca_rows_by_sections(half_breadths, particulars, rows, count, place)
}

// One row in metres, tonnes and square metres.
#[unsafe(no_mangle)]
pub extern "C" fn rugulosca_display(
    row: &[u64; ROW_WIDTH],
    figures: &mut [f64; ROW_WIDTH],
    place: &mut usize,
) -> u64
    ensures { Tells figure_numbers (display_of (row_in row.now 0)) figures.old figures.new place.old place.new result }
{
    rugulosca::hulls::rugulosca_display(row, figures, place)
}
