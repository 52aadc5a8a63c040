// The supply-vessel profile, under its name in C.
ghost use Rattle.std.specs.Prelude.{◌≡◌};
ghost use Rattle.levers.specs.Promise.{profile_of, levers_after};
ghost use Rattle.ranges.specs.Outcome.{value_after};
ghost use Rattle.rugulosca.specs.Told.{Tells, profile_wholes, profile_signed};

use levers::ANGLES;
use rugulosca::profiles::{SIGNED_COUNT, WHOLE_COUNT};

// The profile of KN at each angle, KM and KG; GZ at each angle is left in `gz`.
#[unsafe(no_mangle)]
pub extern "C" fn rugulosca_supply_profile(
    kn: &[u64],
    km: u64,
    kg: u64,
    gz: &mut [i64; ANGLES],
    wholes: &mut [u64; WHOLE_COUNT],
    signed_numbers: &mut [i64; SIGNED_COUNT],
    place: &mut usize,
) -> u64
    ensures tells { Tells profile_wholes (profile_of kn.now km kg) wholes.old wholes.new place.old place.new result }
    ensures signed_numbers_after { signed_numbers.new ≡ value_after profile_signed (profile_of kn.now km kg) signed_numbers.old }
    ensures gz_after { gz.new ≡ levers_after kn.now kg (profile_of kn.now km kg) gz.old }
{
    rugulosca::profiles::rugulosca_supply_profile(kn, km, kg, gz, wholes, signed_numbers, place)
}
