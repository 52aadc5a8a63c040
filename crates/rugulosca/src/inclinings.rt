// The light ship of an inclining test.
ghost use Rattle.std.specs.Prelude.{◌≡◌, length};
ghost use Rattle.inclining.specs.Inclining.{inclined_of, ship_of, table_after};
ghost use Rattle.rugulosca.specs.Told.{Tells, test_of, light_ship_numbers};

use crate::told::tell;
use inclining::{LightShip, Test};
use ranges::INCLINING_WIDTH;

// GM as measured; the light ship's weight, vertical moment and KG.
pub const LIGHT_SHIP_COUNT: usize = 4;

// Four numbers as a test.
fn test_of(four: &[u64; INCLINING_WIDTH]) -> Test
    ensures { result ≡ test_of four.now }
{
    Test {
        weight: four[0],
        km: four[1],
        free_surface: four[2],
        pendulum: four[3],
    }
}

// A light ship's numbers.
fn numbers_of(ship: LightShip) -> [u64; LIGHT_SHIP_COUNT]
    ensures { result ≡ light_ship_numbers ship }
{
    [
        ship.measured_gm,
        ship.weight,
        ship.vertical_moment,
        ship.vcg,
    ]
}

// The light ship of a test, its shifts and the items to take off and to put on; each shift's own GM is left in `gms`.
pub fn rugulosca_light_ship(
    test: &[u64; INCLINING_WIDTH],
    shifts: &[u64],
    off: &[i64],
    on: &[i64],
    gms: &mut [u64],
    light_ship: &mut [u64; LIGHT_SHIP_COUNT],
    place: &mut usize,
) -> u64
    ensures tells { Tells light_ship_numbers (ship_of (inclined_of (test_of test.now) shifts.now off.now on.now (length gms.old))) light_ship.old light_ship.new place.old place.new result }
    ensures gms_after { gms.new ≡ table_after (inclined_of (test_of test.now) shifts.now off.now on.now (length gms.old)) gms.old }
{
    let answer = inclining::light_ship(test_of(test), shifts, off, on, gms);
    tell(answer.map(numbers_of), light_ship, place)
}
