// The profile of a supply vessel.
ghost use Rattle.std.specs.Prelude.{◌≡◌};
ghost use Rattle.levers.specs.Promise.{profile_of, levers_after};
ghost use Rattle.ranges.specs.Outcome.{value_after};
ghost use Rattle.rugulosca.specs.Told.{Tells, met, profile_wholes, profile_signed};

use crate::told::tell;
use levers::{ANGLES, Profile, Rule};

// The peak's angle and the five rules; GM, GZ at 30 degrees and the two sums.
pub const WHOLE_COUNT: usize = 6;

pub const SIGNED_COUNT: usize = 4;

// 1 where a rule is met, and 0 where it is missed: numbers, for C.
fn met(rule: Rule) -> u64
    ensures { result ≡ met rule }
{
    match rule {
        Rule::Met => 1,
        Rule::Missed => 0,
    }
}

// A profile's numbers without a sign.
fn wholes_of(profile: Profile) -> [u64; WHOLE_COUNT]
    ensures { result ≡ profile_wholes profile }
{
    let rules = profile.rules;
    [
        profile.peak_angle,
        met(rules.peak),
        met(rules.area_to_t),
        met(rules.area_from_30_to_40),
        met(rules.gz_at_30),
        met(rules.gm),
    ]
}

// And those with one.
fn signed_of(profile: Profile) -> [i64; SIGNED_COUNT]
    ensures { result ≡ profile_signed profile }
{
    [
        profile.gm,
        profile.gz_at_30,
        profile.sum_to_t,
        profile.sum_from_30_to_40,
    ]
}

// The profile of KN at each angle, KM and KG; GZ at each angle is left in `gz`.
pub fn rugulosca_supply_profile(
    kn: &[u64],
    km: u64,
    kg: u64,
    gz: &mut [i64; ANGLES],
    wholes: &mut [u64; WHOLE_COUNT],
    signed_numbers: &mut [i64; SIGNED_COUNT],
    place: &mut usize,
) -> u64
    ensures tells { Tells profile_wholes (profile_of kn.now km kg) wholes.old wholes.new place.old place.new result }
    ensures signed_numbers_after { signed_numbers.new ≡ value_after profile_signed (profile_of kn.now km kg) signed_numbers.old }
    ensures gz_after { gz.new ≡ levers_after kn.now kg (profile_of kn.now km kg) gz.old }
{
    let answer = levers::profile_of(kn, km, kg, gz);
    if let Ok(profile) = answer {
        *signed_numbers = signed_of(profile);
    }
    tell(answer.map(wholes_of), wholes, place)
}
