// A hull's table of half-breadths beside its particulars, with what is known of them.
ghost use Rattle.std.specs.Prelude.{◌≤◌};
ghost use Rattle.hydrostatics.specs.Row.{waterline_of};
ghost use Rattle.hydrostatics.specs.Private.Hull.{Complete, InRange};

use ranges::Particulars;

// A hull of particulars in range, and with a half-breadth for each station and waterline, whatever it is.
#[derive(Clone, Copy)]
pub(crate) struct Hull<'a> {
    pub half_breadths: &'a [u64],
    pub particulars: Particulars,
    ghost complete: { Complete half_breadths.now particulars },
}

// The part of a hull up to a waterline that some row belongs to, and each half-breadth of the hull in range.
#[derive(Clone, Copy)]
pub(crate) struct HullUpTo<'a> {
    pub half_breadths: &'a [u64],
    pub particulars: Particulars,
    pub waterline: usize,
    ghost in_range: { InRange half_breadths.now particulars },
    ghost has_row: { (waterline_of 0 ≤ waterline) × (waterline ≤ particulars.m) },
}
