// The righting levers of a supply vessel, and the criterion that they are held against.
#![tactic(auto)]

mod parts;
mod tables;

ghost use Rattle.std.specs.Prelude.{◌≡◌, ◌≤◌};
ghost use Rattle.ranges.specs.Fields.{most, metacentre};
ghost use Rattle.ranges.specs.Bounds.{place_in};
ghost use Rattle.levers.specs.Levers.{products};
ghost use Rattle.levers.specs.Promise.{count, outside, MakesProfile};

use parts::Parts;
use ranges::{Reason, Record, Refusal};
use tables::Levers;

// Whether a rule of the criterion is kept.
#[derive(Clone, Copy, Debug, PartialEq, Eq)]
pub enum Rule {
    Met,
    Missed,
}

// The five rules: where the peak stands, the area up to it, the area from 30 to 40 degrees, GZ at 30 degrees, and GM.
#[derive(Clone, Copy, Debug, PartialEq, Eq)]
pub struct Rules {
    pub peak: Rule,
    pub area_to_t: Rule,
    pub area_from_30_to_40: Rule,
    pub gz_at_30: Rule,
    pub gm: Rule,
}

// The peak's angle in degrees; GM and GZ at 30 degrees in mm; the multiplied sums of GZ from 0 to t, the peak's angle held
// from 15 to 30, and from 30 to 40 degrees; and the rules.
#[derive(Clone, Copy, Debug, PartialEq, Eq)]
pub struct Profile {
    pub peak_angle: u64,
    pub gm: i64,
    pub gz_at_30: i64,
    pub sum_to_t: i64,
    pub sum_from_30_to_40: i64,
    pub rules: Rules,
}

// How many angles there are, 5 degrees apart from 0 on.
pub const ANGLES: usize = 13;

// Their sines in millionths.
static SINES: [u64; ANGLES] = [
    0, 87_156, 173_648, 258_819, 342_020, 422_618, 500_000, 573_576, 642_788, 707_107, 766_044,
    819_152, 866_025,
];

const MILLION: u64 = 1_000_000;

// The position of the first number out of its range: of KN by angle, KM, KG.
fn outside_of(kn: &[u64; ANGLES], km: u64, kg: u64) -> Option<usize>
    ensures { result ≡ place_in count (outside kn.now km kg) }
{
    if let Some(place) = ranges::first_outside(kn, Record::CrossCurve) {
        return Some(place);
    }
    let place = ranges::first_outside(&[km, kg], Record::Heights)?;
    Some(ANGLES + place)
}

// What is taken off KN at each angle: KG times the sine, rounded up.
fn products_of(kg: u64) -> [u64; ANGLES]
    requires { kg ≤ most metacentre }
    ensures { result ≡ products kg }
{
    let mut off = [0; ANGLES];
    // No `map` over SINES: what its closure multiplies gets no bound from the table.
    for (i, sine) in SINES.iter().enumerate() {
        off[i] = arithmetic::rounded_up(kg * *sine, MILLION);
    }
    off
}

// The profile of KN at each angle, KM and KG, in mm, KG with the free surface and rounded up; GZ at each angle is left in `gz`.
pub fn profile_of(kn: &[u64], km: u64, kg: u64, gz: &mut [i64; ANGLES]) -> Result<Profile, Refusal>
    ensures { MakesProfile kn.now km kg gz.old gz.new result }
{
    let Ok(kn) = <[u64; ANGLES]>::try_from(kn) else {
        return Err(Reason::WrongSize.at(0));
    };
    if let Some(place) = outside_of(&kn, km, kg) {
        return Err(Reason::OutOfRange.at(place));
    }
    let levers = Levers {
        kn,
        off: products_of(kg),
    };
    *gz = levers.gz();
    Ok(levers.profile(Parts { whole: km, off: kg }))
}
