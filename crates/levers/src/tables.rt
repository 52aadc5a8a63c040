// GZ at each angle, by the table of KN and that of what is taken off it.
ghost use Rattle.levers.specs.Private.Tables.{TableInRange};

use crate::parts::Parts;
use crate::{ANGLES, Profile, Rules};

#[derive(Clone, Copy)]
pub(crate) struct Levers {
    pub(crate) kn: [u64; ANGLES],
    pub(crate) off: [u64; ANGLES],
    ghost kn_in_range: { TableInRange kn },
    ghost off_in_range: { TableInRange off },
}

// The degrees from one angle to the next.
const STEP: u64 = 5;

// The angles of 15, 30 and 40 degrees by number.
const AT_15: usize = 3;

const AT_30: usize = 6;

const AT_40: usize = 8;

// The least that the rules ask for: the peak's angle in degrees, GZ at 30 degrees and GM in mm, and the area from 30 to 40 degrees
// in mm·rad; the area to t is the rest to 85.
const LEAST_PEAK: u64 = 15;

const LEAST_GZ: u64 = 200;

const LEAST_GM: u64 = 150;

const LEAST_AREA: u64 = 30;

const AREA_AND_T: u64 = 85;

impl Levers {
    ghost use Rattle.std.specs.Prelude.{◌≡◌, ◌+◌, ◌-◌, ◌<◌};
    ghost use Rattle.simpson.specs.Curve.{curve_ℤ};
    ghost use Rattle.levers.specs.Sines.{angle_count};
    ghost use Rattle.levers.specs.Levers.{lever, at_each, peak};
    ghost use Rattle.levers.specs.Criterion.{profile};
    ghost use Rattle.levers.specs.Private.Parts.{value, IsLever};
    ghost use Rattle.levers.specs.Private.Tables.{greater_of, Between};

    // GZ at each angle.
    pub(crate) fn gz(&self) -> [i64; ANGLES]
        ensures { result ≡ at_each (lever self.now.kn self.now.off) }
    {
        let mut gz = [0; ANGLES];
        for (i, lever) in gz.iter_mut().enumerate() {
            *lever = arithmetic::difference(self.kn[i], self.off[i]);
        }
        gz
    }

    // GZ at an angle, by number.
    fn lever_at(&self, i: usize) -> Parts
        requires { i < angle_count }
        ensures { IsLever self.now.kn self.now.off i result }
    {
        Parts {
            whole: self.kn[i],
            off: self.off[i],
        }
    }

    // Of two angles the one with the greater GZ, and the first where they are alike.
    fn greater_of(&self, first: usize, i: usize) -> usize
        requires { (first < angle_count) × (i < angle_count) }
        ensures { result ≡ greater_of (lever self.now.kn self.now.off) first i }
    {
        if self.kn[first] + self.off[i] < self.kn[i] + self.off[first] {
            i
        } else {
            first
        }
    }

    // The angle of the first greatest GZ, by number.
    fn peak(&self) -> usize
        ensures { result ≡ peak (lever self.now.kn self.now.off) }
    {
        let mut first = 0;
        for i in 1..ANGLES {
            first = self.greater_of(first, i);
        }
        first
    }

    // The multiplied sum of GZ from one angle to another.
    fn sum(&self, from: usize, to: usize) -> Parts
        requires { Between from to }
        ensures { value result ≡ curve_ℤ (to - from) (λ i. lever self.now.kn self.now.off (from + i)) }
    {
        Parts {
            whole: sum_over(&self.kn, from, to),
            off: sum_over(&self.off, from, to),
        }
    }

    // The profile, by GM.
    pub(crate) fn profile(&self, gm: Parts) -> Profile
        ensures { result ≡ profile (lever self.now.kn self.now.off) (value gm) }
    {
        let peak = self.peak();
        let last = held_at(peak);
        let angle = STEP * peak as u64;
        let t = STEP * last as u64;
        let to_t = self.sum(0, last);
        let from_30 = self.sum(AT_30, AT_40);
        let at_30 = self.lever_at(AT_30);
        let stands = Parts {
            whole: angle,
            off: 0,
        };
        Profile {
            peak_angle: angle,
            gm: gm.value(),
            gz_at_30: at_30.value(),
            sum_to_t: to_t.value(),
            sum_from_30_to_40: from_30.value(),
            rules: Rules {
                peak: stands.at_least(LEAST_PEAK),
                area_to_t: to_t.area_at_least(AREA_AND_T - t),
                area_from_30_to_40: from_30.area_at_least(LEAST_AREA),
                gz_at_30: at_30.at_least(LEAST_GZ),
                gm: gm.at_least(LEAST_GM),
            },
        }
    }
}

ghost use Rattle.std.specs.Prelude.{◌≡◌};
ghost use Rattle.levers.specs.Sines.{degrees};
ghost use Rattle.levers.specs.Levers.{held};
ghost use Rattle.levers.specs.Private.Tables.{Between, sum_over};

// The multiplied sum over a table's numbers from one angle to another.
fn sum_over(table: &[u64], from: usize, to: usize) -> u64
    requires { TableInRange table.now × Between from to }
    ensures { result ≡ sum_over table.now from to }
{
    // No table is so short, and no sum so large, that there is none.
    simpson::curve_sum(&table[from..=to]).unwrap()
}

// The peak's angle by number, held from 15 to 30 degrees.
fn held_at(peak: usize) -> usize
    ensures { degrees result ≡ held (degrees peak) }
{
    peak.clamp(AT_15, AT_30)
}
