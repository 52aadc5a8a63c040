// A hopper tank's free surface, under its name in C.
ghost use Rattle.hoppers.specs.Hopper.{surface_of};
ghost use Rattle.rugulosca.specs.Told.{Tells, surface_numbers};

use rugulosca::surfaces::SURFACE_COUNT;

// The free surface of widths to port and to starboard, an interval apart, of a liquid.
#[unsafe(no_mangle)]
pub extern "C" fn rugulosca_hopper_surface(
    port: &[u64],
    starboard: &[u64],
    interval: u64,
    density: u64,
    surface: &mut [u64; SURFACE_COUNT],
    place: &mut usize,
) -> u64
    ensures { Tells surface_numbers (surface_of port.now starboard.now interval density) surface.old surface.new place.old place.new result }
{
    rugulosca::surfaces::rugulosca_hopper_surface(
        port, starboard, interval, density, surface, place,
    )
}
