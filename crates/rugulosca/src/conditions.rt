// The loading condition.
ghost use Rattle.std.specs.Prelude.{◌≡◌};
ghost use Rattle.loading.specs.Condition.{condition_of, condition_by};
ghost use Rattle.ranges.specs.Reasons.{paper};
ghost use Rattle.rugulosca.specs.Told.{TellsCondition, lie, wholes_of};

use crate::told::tell;
use loading::{Condition, Heel, Reading};
use ranges::Refusal;

// How many numbers of a condition have no sign, and how many have one.
pub const WHOLE_COUNT: usize = 8;

pub const SIGNED_COUNT: usize = 2;

// How the vessel lies, by number: a program in C reads numbers alone (include/rugulosca.h).
fn lie(heel: Heel) -> u64
    ensures { result ≡ lie heel }
{
    match heel {
        Heel::Unstable => 0,
        Heel::Upright => 1,
        Heel::Heeled(_) => 2,
        Heel::Beyond => 3,
    }
}

// A condition's numbers without a sign.
fn wholes_of(c: Condition) -> [u64; WHOLE_COUNT]
    ensures { result ≡ wholes_of c }
{
    [
        c.weight,
        c.draft,
        c.km,
        c.lcg,
        c.vertical_moment,
        c.free_surface,
        lie(c.heel),
        u64::from(c.passes),
    ]
}

// Leaves a condition, with the tangent only where the vessel is heeled, or the refusal's place.
pub(crate) fn tell_condition(
    answer: Result<Condition, Refusal>,
    wholes: &mut [u64; WHOLE_COUNT],
    signed_numbers: &mut [i64; SIGNED_COUNT],
    tangent: &mut f64,
    place: &mut usize,
) -> u64
    ensures { TellsCondition (paper answer) wholes.old wholes.new signed_numbers.old signed_numbers.new tangent.old tangent.new place.old place.new result }
{
    if let Ok(c) = answer {
        *signed_numbers = [c.gm, c.transverse_moment];
        if let Heel::Heeled(angle) = c.heel {
            *tangent = angle;
        }
    }
    tell(answer.map(wholes_of), wholes, place)
}

// The condition of items and tanks over the rows of a hull, with the lesser KM between two rows.
pub fn rugulosca_condition(
    items: &[i64],
    tanks: &[i64],
    rows: &[u64],
    wholes: &mut [u64; WHOLE_COUNT],
    signed_numbers: &mut [i64; SIGNED_COUNT],
    tangent: &mut f64,
    place: &mut usize,
) -> u64
    ensures { TellsCondition (condition_of items.now tanks.now rows.now) wholes.old wholes.new signed_numbers.old signed_numbers.new tangent.old tangent.new place.old place.new result }
{
    let answer = loading::condition_of(items, tanks, rows);
    tell_condition(answer, wholes, signed_numbers, tangent, place)
}

// The same with KM on the straight line between two rows.
pub fn rugulosca_condition_straight_line(
    items: &[i64],
    tanks: &[i64],
    rows: &[u64],
    wholes: &mut [u64; WHOLE_COUNT],
    signed_numbers: &mut [i64; SIGNED_COUNT],
    tangent: &mut f64,
    place: &mut usize,
) -> u64
    ensures { TellsCondition (condition_by Reading.StraightLine items.now tanks.now rows.now) wholes.old wholes.new signed_numbers.old signed_numbers.new tangent.old tangent.new place.old place.new result }
{
    let answer = loading::condition_by(Reading::StraightLine, items, tanks, rows);
    tell_condition(answer, wholes, signed_numbers, tangent, place)
}
