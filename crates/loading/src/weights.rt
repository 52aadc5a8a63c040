// A weight where it stands, what it brings aboard, and what two bring together.
ghost use Rattle.std.specs.Prelude.{◌≡◌, ◌+◌, nat_abs};
ghost use Rattle.loading.specs.Private.Aboard.{Stowed, Bearable, weight_at, ◌with◌};
ghost use Rattle.ranges.specs.Fields.{most, range_of};

use crate::Aboard;
use ranges::{ITEM_WIDTH, Sides};
use std::ops::Add;

// So many kg at x, y and z mm, no heavier than a tank's contents and no further off than the ranges allow.
#[derive(Clone, Copy)]
pub(crate) struct Weight {
    pub(crate) kg: u64,
    x: u64,
    y: i64,
    z: u64,
    ghost stowed: { Stowed (most (range_of 10)) kg x y z },
}

impl Weight {
    ghost use Rattle.loading.specs.Private.Aboard.{StowedItem, item_at};
    ghost use Rattle.loading.specs.Private.Filled.{item_of};

    // So many kg at x, y and z.
    pub(crate) fn at(kg: i64, x: i64, y: i64, z: i64) -> Weight
        requires { Stowed (most (range_of 10)) (nat_abs kg) (nat_abs x) y (nat_abs z) }
        ensures kg { result.kg ≡ nat_abs kg }
        ensures x { result.x ≡ nat_abs x }
        ensures y { result.y ≡ y }
        ensures z { result.z ≡ nat_abs z }
    {
        Weight {
            kg: arithmetic::magnitude(kg),
            x: arithmetic::magnitude(x),
            y,
            z: arithmetic::magnitude(z),
        }
    }

    // An item of its record. No `From`, since it asks that the numbers are in their ranges.
    pub(crate) fn of_item(numbers: &[i64; ITEM_WIDTH]) -> Weight
        requires { StowedItem (item_at numbers.now 0) }
        ensures { item_of result ≡ item_at numbers.now 0 }
    {
        let [kg, x, y, z] = *numbers;
        Weight::at(kg, x, y, z)
    }

    // What it brings, with so much free surface.
    pub(crate) fn aboard(self, surface: u64) -> Aboard
        ensures { result ≡ weight_at self.kg self.x self.y self.z surface }
    {
        let sides = Sides::from(self.y);
        Aboard {
            weight: self.kg,
            longitudinal: self.kg * self.x,
            vertical: self.kg * self.z,
            port: self.kg * sides.port,
            starboard: self.kg * sides.starboard,
            surface,
        }
    }
}

impl Add for Aboard {
    type Output = Aboard;

    ghost can_add = { λ a b. Bearable a × Bearable b };

    ghost add_gives = { λ a b both. both ≡ a with b };

    fn add(self, more: Aboard) -> Aboard {
        Aboard {
            weight: self.weight + more.weight,
            longitudinal: self.longitudinal + more.longitudinal,
            vertical: self.vertical + more.vertical,
            port: self.port + more.port,
            starboard: self.starboard + more.starboard,
            surface: self.surface + more.surface,
        }
    }
}
