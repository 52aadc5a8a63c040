// GM, the heel and the pass.
ghost use Rattle.std.specs.Prelude.{◌≡◌, ◌^◌, ◌<◌, ◌≤◌, pos, ◌-ℤ◌};
ghost use Rattle.loading.specs.Stability.{heel_of};
ghost use Rattle.loading.specs.Private.Steady.{above_zero, gm_of, passes_with, Moderate};
ghost use Rattle.ranges.specs.Fields.{highest_metacentre};

use crate::{Condition, Heel};

// The heel limit is a tangent in ten-thousandths.
const TEN_THOUSANDTHS: u64 = 10_000;

// a less b.
pub(crate) fn less(a: u64, b: u64) -> i64
    requires { (a < 2 ^ 62) × (b < 2 ^ 62) }
    ensures { result ≡ pos a -ℤ pos b }
{
    arithmetic::difference(a, b)
}

// KM less the moment by the weight, the quotient rounded up.
pub(crate) fn gm_of(km: u64, moment: u64, weight: u64) -> i64
    requires { (km ≤ highest_metacentre) × (moment < 2 ^ 62) × (0 < weight) }
    ensures { result ≡ gm_of km moment weight }
{
    less(km, arithmetic::rounded_up(moment, weight))
}

// v, or 0 where v is below 0; by arithmetic's two calls, since no other crate looks into a machine word.
fn above_zero(v: i64) -> u64
    ensures { result ≡ above_zero v }
{
    if arithmetic::is_negative(v) {
        0
    } else {
        arithmetic::magnitude(v)
    }
}

// How a weight lies with so much GM under a transverse moment.
pub(crate) fn heel_of(weight: u64, gm: i64, my: i64) -> Heel
    requires { Moderate weight gm my }
    ensures { result ≡ heel_of weight gm my }
{
    let height = above_zero(gm);
    if height == 0 {
        return Heel::Unstable;
    }
    let moment = arithmetic::magnitude(my);
    if moment == 0 {
        return Heel::Upright;
    }
    let righting = weight * height;
    if TEN_THOUSANDTHS * moment <= Condition::HEEL_LIMIT * righting {
        return Heel::Heeled((my as f64) / (righting as f64));
    }
    Heel::Beyond
}

// GM of 150 mm or more, and upright or heeled.
pub(crate) fn passes(gm: i64, heel: Heel) -> bool
    ensures { result ≡ passes_with gm heel }
{
    Condition::LEAST_GM <= above_zero(gm) && matches!(heel, Heel::Upright | Heel::Heeled(_))
}
