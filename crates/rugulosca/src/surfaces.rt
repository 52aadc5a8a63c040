// The free surface of a hopper tank.
ghost use Rattle.std.specs.Prelude.{◌≡◌};
ghost use Rattle.hoppers.specs.Hopper.{surface_of};
ghost use Rattle.rugulosca.specs.Told.{Tells, surface_numbers};

use crate::told::tell;
use hoppers::FreeSurface;

// The inertia and the moment.
pub const SURFACE_COUNT: usize = 2;

// A surface's numbers.
fn numbers_of(surface: FreeSurface) -> [u64; SURFACE_COUNT]
    ensures { result ≡ surface_numbers surface }
{
    [surface.inertia, surface.moment]
}

// The free surface of widths to port and to starboard, an interval apart, of a liquid.
pub fn rugulosca_hopper_surface(
    port: &[u64],
    starboard: &[u64],
    interval: u64,
    density: u64,
    surface: &mut [u64; SURFACE_COUNT],
    place: &mut usize,
) -> u64
    ensures { Tells surface_numbers (surface_of port.now starboard.now interval density) surface.old surface.new place.old place.new result }
{
    let answer = hoppers::surface_of(port, starboard, interval, density);
    tell(answer.map(numbers_of), surface, place)
}
