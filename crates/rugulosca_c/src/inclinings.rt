// The inclining test, under its name in C.
ghost use Rattle.std.specs.Prelude.{◌≡◌, length};
ghost use Rattle.inclining.specs.Inclining.{inclined_of, ship_of, table_after};
ghost use Rattle.rugulosca.specs.Told.{Tells, test_of, light_ship_numbers};

use ranges::INCLINING_WIDTH;
use rugulosca::inclinings::LIGHT_SHIP_COUNT;

// The light ship of a test, its shifts and the items to take off and to put on; each shift's own GM is left in `gms`.
#[unsafe(no_mangle)]
pub extern "C" fn rugulosca_light_ship(
    test: &[u64; INCLINING_WIDTH],
    shifts: &[u64],
    off: &[i64],
    on: &[i64],
    gms: &mut [u64],
    light_ship: &mut [u64; LIGHT_SHIP_COUNT],
    place: &mut usize,
) -> u64
    ensures tells { Tells light_ship_numbers (ship_of (inclined_of (test_of test.now) shifts.now off.now on.now (length gms.old))) light_ship.old light_ship.new place.old place.new result }
    ensures gms_after { gms.new ≡ table_after (inclined_of (test_of test.now) shifts.now off.now on.now (length gms.old)) gms.old }
{
    rugulosca::inclinings::rugulosca_light_ship(test, shifts, off, on, gms, light_ship, place)
}
