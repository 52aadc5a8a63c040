// A number of either sign as two whole ones, and the rules that hold it to a least one.
ghost use Rattle.std.specs.Prelude.{◌≤◌};
ghost use Rattle.levers.specs.Private.Tables.{most_sum};

use crate::Rule;

// The second is to be taken off the first. Both are small, so that nothing that is made of them wraps.
#[derive(Clone, Copy)]
pub(crate) struct Parts {
    pub(crate) whole: u64,
    pub(crate) off: u64,
    ghost whole_small: { whole ≤ most_sum },
    ghost off_small: { off ≤ most_sum },
}

// A multiplied sum times SUM_UNIT has AREA_UNIT for each mm·rad of its area: it is in 24ths of 5 degrees, and 57,296 thousandths of
// a degree are a radian.
const SUM_UNIT: u64 = 5_000;

const AREA_UNIT: u64 = 24 * 57_296;

impl Parts {
    ghost use Rattle.std.specs.Prelude.{◌≡◌};
    ghost use Rattle.levers.specs.Criterion.{at_least, area_at_least};
    ghost use Rattle.levers.specs.Private.Parts.{value};
    ghost use Rattle.levers.specs.Private.Tables.{least_most};

    // What they come to.
    pub(crate) fn value(self) -> i64
        ensures { result ≡ value self }
    {
        arithmetic::difference(self.whole, self.off)
    }

    // Whether they come to so much.
    pub(crate) fn at_least(self, least: u64) -> Rule
        requires { least ≤ least_most }
        ensures { result ≡ at_least least (value self) }
    {
        if self.whole < self.off + least {
            Rule::Missed
        } else {
            Rule::Met
        }
    }

    // Whether the area by this multiplied sum is at least so many mm·rad. By one function for both, `at_least` would multiply by a unit of 1.
    pub(crate) fn area_at_least(self, least: u64) -> Rule
        requires { least ≤ least_most }
        ensures { result ≡ area_at_least least (value self) }
    {
        if SUM_UNIT * self.whole < SUM_UNIT * self.off + AREA_UNIT * least {
            Rule::Missed
        } else {
            Rule::Met
        }
    }
}
