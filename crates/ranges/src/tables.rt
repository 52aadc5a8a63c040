// Where the first number of a table stands that is out of its range.
ghost use Rattle.std.specs.Prelude.{◌≡◌, length};
ghost use Rattle.ranges.specs.Outside.{first_outside};
ghost use Rattle.ranges.specs.Bounds.{section_of, place_in};

use crate::bounds::{Number, Record};

// The place of the first number out of its range in a table of records.
pub fn first_outside<N: Number>(table: &[N], kind: Record) -> Option<usize>
    ensures { result ≡ place_in (length table.now) (first_outside (section_of kind) (N.values table.now)) }
{
    let bounds = kind.bounds();
    for (i, number) in table.iter().enumerate() {
        if !number.is_within(bounds[i % bounds.len()]) {
            return Some(i);
        }
    }
    None
}
