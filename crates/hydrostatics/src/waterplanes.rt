// The sums over the waterplanes of a hull. What a waterline contributes, the sums of u·y, of u·y·i and of u·y³, is gathered in
// one sweep over its half-breadths and kept for the hull: a row is made of what is kept, and reads no half-breadth again.
ghost use Rattle.std.specs.Prelude.{◌≡◌, ◌+◌, ◌-◌, ◌<◌, ◌≤◌, length};
ghost use Rattle.ranges.specs.Fields.{range_of, most};
ghost use Rattle.simpson.specs.Multipliers.{multiplier};
ghost use Rattle.hydrostatics.specs.Hull.{half_breadth};
ghost use Rattle.hydrostatics.specs.Row.{waterline_of};
ghost use Rattle.hydrostatics.specs.Private.Hull.{Filled};
ghost use Rattle.hydrostatics.specs.Private.Sums.{no_sums, TriedSums};
ghost use Rattle.hydrostatics.specs.Private.Waterplanes.{StationMultipliers, GatheredOf, Small, sums_from, up_to};

use crate::MOST_ROWS;
use crate::hull::Hull;
use crate::table::{FIRST_WATERLINE, Sums};
use ranges::{MOST_STATIONS, MOST_WATERLINES, Number, Particulars};

// What one waterline contributes: the sums of u·y, of u·y times the station's number, and of u·y³.
#[derive(Clone, Copy, Default)]
struct Waterline {
    pub q: u64,
    pub x: u64,
    pub c: u64,
}

// The multipliers of the stations over n intervals.
fn station_multipliers(n: usize) -> [u64; MOST_STATIONS]
    requires { n ≤ most (range_of 0) }
    ensures { Filled 0 (multiplier n) (n + 1) result }
{
    let mut u = [0u64; MOST_STATIONS];
    for i in 0..n + 1 {
        u[i] = simpson::multiplier(n, i);
    }
    u
}

impl Hull<'_> {
    // The half-breadth at station i, waterline j: station by station from aft, each from the keel up.
    fn half_breadth_at(&self, i: usize, j: usize) -> u64
        requires { (i ≤ self.now.particulars.n) × (j ≤ self.now.particulars.m) }
        ensures { result ≡ half_breadth self.now.half_breadths.now self.now.particulars i j }
    {
        self.half_breadths[i * (self.particulars.m + 1) + j]
    }

    // What waterline j contributes, in one sweep that tries each half-breadth as it reads it; nothing where one is out of
    // range. `stations` has the multiplier of each station. Out of line: beside its caller's values the sweep's do not all find registers.
    #[inline(never)]
    fn waterline_sums(&self, stations: &[u64], j: usize) -> Option<Waterline>
        requires { (StationMultipliers self.now.particulars.n stations.now) × (j ≤ self.now.particulars.m) }
        ensures { GatheredOf self.now.half_breadths.now self.now.particulars j result }
    {
        let mut q: u64 = 0;
        let mut x: u64 = 0;
        let mut c: u64 = 0;
        for (i, u) in stations.iter().enumerate() {
            let y = self.half_breadth_at(i, j);
            if !y.is_within(ranges::HALF_BREADTH) {
                return None;
            }
            let uy = *u * y;
            q += uy;
            x += uy * i as u64;
            c += uy * (y * y);
        }
        Some(Waterline { q, x, c })
    }
}

// The five sums of the row of the last of these waterlines, the first of which is the keel.
fn row_sums(lines: &[Waterline]) -> Sums
    requires { Small lines.now }
    ensures { result ≡ sums_from lines.now }
{
    let k = lines.len() - 1;
    let mut sum: u64 = 0;
    let mut sz: u64 = 0;
    let mut sx: u64 = 0;
    for (j, line) in lines.iter().enumerate() {
        let v = simpson::multiplier(k, j);
        let vq = v * line.q;
        sum += vq;
        sz += vq * j as u64;
        sx += v * line.x;
    }
    let top = lines[k];
    Sums {
        sum,
        sz,
        sx,
        q: top.q,
        c: top.c,
    }
}

// The five sums of every row up to the last of these waterlines, with room for the most rows that there may be: there is no heap.
fn sums_of_rows(lines: &[Waterline]) -> [Sums; MOST_ROWS]
    requires { (Small lines.now) × (waterline_of 0 < length lines.now) }
    ensures { Filled no_sums (λ row. sums_from (up_to (waterline_of row) lines.now)) (length lines.now - waterline_of 0) result }
{
    let mut sums = [Sums::default(); MOST_ROWS];
    for r in 0..lines.len() - FIRST_WATERLINE {
        sums[r] = row_sums(&lines[..r + FIRST_WATERLINE + 1]);
    }
    sums
}

// The five sums of every row of a hull, each waterline swept once; none where a half-breadth is out of range.
pub(crate) fn hull_sums(hull: Hull) -> Option<[Sums; MOST_ROWS]>
    ensures { TriedSums hull.entry.half_breadths.now hull.entry.particulars result }
{
    let Particulars { n, m, .. } = hull.particulars;
    let multipliers = station_multipliers(n);
    let stations = &multipliers[..n + 1];
    let mut lines = [Waterline::default(); MOST_WATERLINES];
    for j in 0..m + 1 {
        lines[j] = hull.waterline_sums(stations, j)?;
    }
    Some(sums_of_rows(&lines[..m + 1]))
}
