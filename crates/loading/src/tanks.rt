// What the tanks bring aboard, each with its free surface, or the refusal of the first that is not allowed.
ghost use Rattle.std.specs.Prelude.{◌≡◌, ◌*◌, ◌^◌, ◌≤◌};
ghost use Rattle.arithmetic.specs.Rounding.{rounded_up};
ghost use Rattle.loading.specs.Private.Aboard.{RoomOf, TanksWhole, TanksTried};
ghost use Rattle.loading.specs.Paper.{rectangle};
ghost use Rattle.ranges.specs.Fields.{most, range_of};

use crate::Aboard;
use crate::weights::Weight;
use ranges::{Reason, Record, Refusal, TANK_WIDTH};

// 12,000,000,000 parts of a surface, mm⁴ · kg/m³, are one kg·mm.
const PARTS: u64 = 12_000_000_000;

// Filled to so many hundredths of its capacity, a tank is pressed up.
const PRESSED_UP: u64 = 98;

// The hundredths of a whole.
const HUNDREDTHS: u64 = 100;

// A tank, its numbers in their ranges: what it contains, its capacity in kg, the mm of its surface, and its liquid's density in kg/m³.
#[derive(Clone, Copy)]
struct Tank {
    contents: Weight,
    capacity: u64,
    length: u64,
    breadth: u64,
    density: u64,
    ghost capacity_most: { capacity ≤ most (range_of 11) },
    ghost room: { RoomOf length breadth density },
}

impl Tank {
    ghost use Rattle.loading.specs.Private.Aboard.{TankFits, tank_at, of_tank};
    ghost use Rattle.loading.specs.Private.Filled.{tank_of};
    ghost use Rattle.loading.specs.Paper.{slack};
    ghost use Rattle.loading.specs.Rules.{surface_of};

    // The tank of a record. No `From`, since it asks that the numbers are in their ranges.
    fn of(numbers: &[i64; TANK_WIDTH]) -> Tank
        requires { TankFits (tank_at numbers.now 0) }
        ensures { tank_of result ≡ tank_at numbers.now 0 }
    {
        let [contents, capacity, x, y, z, length, breadth, density] = *numbers;
        Tank {
            contents: Weight::at(contents, x, y, z),
            capacity: arithmetic::magnitude(capacity),
            length: arithmetic::magnitude(length),
            breadth: arithmetic::magnitude(breadth),
            density: arithmetic::magnitude(density),
        }
    }

    // Neither empty nor pressed up.
    #[tactic(auto, unfolding(crate::specs::Paper::slack))]
    fn is_slack(self) -> bool
        ensures { result ≡ slack (tank_of self) }
    {
        let contents = self.contents.kg;
        0 < contents && HUNDREDTHS * contents < PRESSED_UP * self.capacity
    }

    // Its free surface: none unless it is slack.
    fn surface(self) -> u64
        ensures { result ≡ surface_of rectangle (tank_of self) }
    {
        if !self.is_slack() {
            return 0;
        }
        let breadth = self.breadth;
        arithmetic::rounded_up(
            self.length * (breadth * breadth * breadth) * self.density,
            PARTS,
        )
    }

    // What it brings.
    fn aboard(self) -> Aboard
        ensures { result ≡ of_tank (tank_of self) }
    {
        self.contents.aboard(self.surface())
    }
}

// All tanks of a table together, or the first refusal: of each tank its eight numbers against their ranges, then its contents
// against its capacity.
pub(crate) fn tanks_aboard(tanks: &[i64]) -> Result<Aboard, Refusal>
    requires { TanksWhole tanks.now }
    ensures { TanksTried tanks.now result }
{
    let (records, _) = tanks.as_chunks::<TANK_WIDTH>();
    let mut all = Aboard::default();
    for (i, numbers) in records.iter().enumerate() {
        let at = Refusal::TANKS_AT + TANK_WIDTH * i;
        if let Some(place) = ranges::first_outside(numbers, Record::Tank) {
            return Err(Reason::OutOfRange.at(at + place));
        }
        let tank = Tank::of(numbers);
        if tank.capacity < tank.contents.kg {
            return Err(Reason::ContentsAboveCapacity.at(at));
        }
        all = all + tank.aboard();
    }
    Ok(all)
}
