// The free surface of a tank that is not a rectangle, by its widths to port and to starboard of the middle line.
#![tactic(auto)]

ghost use Rattle.std.specs.Prelude.{◌≡◌};
ghost use Rattle.hoppers.specs.Hopper.{counts_fit, count, outside, MakesSurface};
ghost use Rattle.hoppers.specs.Private.Side.{SideInRange, SurfaceInRange, side_of};
ghost use Rattle.hoppers.specs.Surface.{inertia};
ghost use Rattle.ranges.specs.Bounds.{place_in};

use ranges::{Bounds, Number, Reason, Record, Refusal};

// About the surface's own centre: its inertia in mm⁴, and the moment that its liquid makes, in kg·mm.
#[derive(Clone, Copy, Debug, PartialEq, Eq)]
pub struct FreeSurface {
    pub inertia: u64,
    pub moment: u64,
}

// The sums over the widths to one side, over their squares and over their cubes.
#[derive(Clone, Copy)]
struct Side {
    widths: u64,
    squares: u64,
    cubes: u64,
}

// How many widths there may be to a side: one more than 2 to 10 intervals.
const WIDTHS: Bounds = Bounds::FromTo(3, 11);

// So many mm⁴ · kg/m³ are one kg·mm.
const MOMENT_UNIT: u64 = 1_000_000_000;

// Whether there are as many widths to port as to starboard, and as many as there may be.
#[tactic(auto, unfolding(crate::specs::Hopper::counts_fit))]
fn counts_fit(port: usize, starboard: usize) -> bool
    ensures { result ≡ counts_fit port starboard }
{
    port == starboard && (port as u64).is_within(WIDTHS)
}

// The position of the first number out of its range: of the widths to port, those to starboard, the interval, the density.
// The four stay parameters: a struct of them was tried, and each clause read `self.entry.port.now` for `port.now`, with no fact to keep.
fn outside_of(port: &[u64], starboard: &[u64], interval: u64, density: u64) -> Option<usize>
    ensures { result ≡ place_in (count port.now starboard.now interval density) (outside port.now starboard.now interval density) }
{
    if let Some(place) = ranges::first_outside(port, Record::HopperWidth) {
        return Some(place);
    }
    if let Some(place) = ranges::first_outside(starboard, Record::HopperWidth) {
        return Some(port.len() + place);
    }
    let widths = port.len() + starboard.len();
    if !interval.is_within(ranges::HOPPER_INTERVAL) {
        return Some(widths);
    }
    if !density.is_within(ranges::LIQUID_DENSITY) {
        return Some(widths + 1);
    }
    None
}

// The sums over one side.
fn side_of(table: &[u64]) -> Side
    requires { SideInRange table.now }
    ensures { result ≡ side_of table.now }
{
    let n = table.len() - 1;
    let mut widths: u64 = 0;
    let mut squares: u64 = 0;
    let mut cubes: u64 = 0;
    for (i, width) in table.iter().enumerate() {
        let u = simpson::multiplier(n, i);
        let width = *width;
        widths += u * width;
        squares += u * (width * width);
        cubes += u * (width * width * width);
    }
    Side {
        widths,
        squares,
        cubes,
    }
}

// The inertia about the surface's own centre.
fn inertia_of(port: &[u64], starboard: &[u64], interval: u64) -> u64
    requires { SurfaceInRange port.now starboard.now interval }
    ensures { result ≡ inertia port.now starboard.now interval }
{
    let to_port = side_of(port);
    let to_starboard = side_of(starboard);
    let area = to_port.widths + to_starboard.widths;
    let lean = arithmetic::apart(to_starboard.squares, to_port.squares);
    let cubes = to_port.cubes + to_starboard.cubes;
    let numerator = 4 * area * cubes - 3 * lean * lean;
    arithmetic::rounded_up(numerator, 288 * area) * interval
}

// The free surface of widths to port and to starboard an interval apart, in mm, and of a liquid's density in kg/m³.
pub fn surface_of(
    port: &[u64],
    starboard: &[u64],
    interval: u64,
    density: u64,
) -> Result<FreeSurface, Refusal>
    ensures { MakesSurface port.now starboard.now interval density result }
{
    if !counts_fit(port.len(), starboard.len()) {
        return Err(Reason::WrongSize.at(0));
    }
    if let Some(place) = outside_of(port, starboard, interval, density) {
        return Err(Reason::OutOfRange.at(place));
    }
    let inertia = inertia_of(port, starboard, interval);
    Ok(FreeSurface {
        inertia,
        moment: arithmetic::rounded_up(inertia * density, MOMENT_UNIT),
    })
}
