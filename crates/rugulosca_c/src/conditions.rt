// A condition over lent tables, by each reading of KM, under their names in C.
ghost use Rattle.loading.specs.Condition.{condition_of, condition_by};
ghost use Rattle.rugulosca.specs.Told.{TellsCondition};

use loading::Reading;
use rugulosca::conditions::{SIGNED_COUNT, WHOLE_COUNT};

// The condition of items and tanks over the rows of a hull, with the lesser KM between two rows.
#[unsafe(no_mangle)]
pub extern "C" fn rugulosca_condition(
    items: &[i64],
    tanks: &[i64],
    rows: &[u64],
    wholes: &mut [u64; WHOLE_COUNT],
    signed_numbers: &mut [i64; SIGNED_COUNT],
    tangent: &mut f64,
    place: &mut usize,
) -> u64
    ensures { TellsCondition (condition_of items.now tanks.now rows.now) wholes.old wholes.new signed_numbers.old signed_numbers.new tangent.old tangent.new place.old place.new result }
{
    rugulosca::conditions::rugulosca_condition(
        items,
        tanks,
        rows,
        wholes,
        signed_numbers,
        tangent,
        place,
    )
}

// The same with KM on the straight line between two rows.
#[unsafe(no_mangle)]
pub extern "C" fn rugulosca_condition_straight_line(
    items: &[i64],
    tanks: &[i64],
    rows: &[u64],
    wholes: &mut [u64; WHOLE_COUNT],
    signed_numbers: &mut [i64; SIGNED_COUNT],
    tangent: &mut f64,
    place: &mut usize,
) -> u64
    ensures { TellsCondition (condition_by Reading.StraightLine items.now tanks.now rows.now) wholes.old wholes.new signed_numbers.old signed_numbers.new tangent.old tangent.new place.old place.new result }
{
    rugulosca::conditions::rugulosca_condition_straight_line(
        items,
        tanks,
        rows,
        wholes,
        signed_numbers,
        tangent,
        place,
    )
}
