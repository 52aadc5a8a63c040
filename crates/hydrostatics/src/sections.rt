// The sums of a hull's rows by sections, as a surveyor works them by hand: for each station its area and its height moment up to the
// waterline, then the stations' along the length.
ghost use Rattle.std.specs.Prelude.{◌≡◌, ◌≤◌};
ghost use Rattle.hydrostatics.specs.Row.{sums_at, waterline_of};
ghost use Rattle.hydrostatics.specs.Private.Sections.{curve_from, curve_of, moment_of, Covers, Summable, Balanced, SectionOf, SectionsOf};
ghost use Rattle.hydrostatics.specs.Private.Sums.{TriedSums};

use crate::MOST_ROWS;
use crate::hull::{Hull, HullUpTo};
use crate::table::{FIRST_WATERLINE, Sums};
use ranges::{MOST_STATIONS, Record};
use simpson::{
    FIRST_BETWEEN, FIRST_END, FIRST_INTERVALS, SECOND_BETWEEN, SECOND_END, SECOND_INTERVALS,
};

// A station up to a waterline: the sum over its half-breadths, that of each times its waterline's number, and the half-breadth at
// the waterline itself.
#[derive(Clone, Copy)]
struct Section {
    pub area: u64,
    pub moment: u64,
    pub half_breadth: u64,
}

// Every station so, and the cubes of the half-breadths at the waterline. Four lists and not one of stations, since each is summed
// as a slice of numbers.
#[derive(Clone, Copy)]
struct Sections {
    pub areas: [u64; MOST_STATIONS],
    pub moments: [u64; MOST_STATIONS],
    pub half_breadths: [u64; MOST_STATIONS],
    pub cubes: [u64; MOST_STATIONS],
}

// The first rule on the first two intervals.
#[tactic(auto, using(crate::proofs::Plain::first_rule_from))]
fn first_rule(ordinates: &[u64]) -> u64
    requires { Covers 2 ordinates.now }
    ensures { result ≡ curve_from 2 ordinates.now }
{
    FIRST_END * ordinates[0] + FIRST_BETWEEN * ordinates[1] + FIRST_END * ordinates[2]
}

// The second rule on the first three.
#[tactic(auto, using(crate::proofs::Plain::second_rule_from))]
fn second_rule(ordinates: &[u64]) -> u64
    requires { Covers 3 ordinates.now }
    ensures { result ≡ curve_from 3 ordinates.now }
{
    SECOND_END * ordinates[0]
        + SECOND_BETWEEN * ordinates[1]
        + SECOND_BETWEEN * ordinates[2]
        + SECOND_END * ordinates[3]
}

// The sum over the curve through these ordinates: three intervals by the second rule, two by the first; of more, the first rule takes
// two off the front, and the rest are worked the same way.
fn curve_sum(ordinates: &[u64]) -> u64
    requires { Summable ordinates.now }
    ensures { result ≡ curve_of ordinates.now }
{
    let intervals = ordinates.len() - 1;
    if intervals == SECOND_INTERVALS {
        return second_rule(ordinates);
    }
    let front = first_rule(ordinates);
    if intervals == FIRST_INTERVALS {
        return front;
    }
    front + curve_sum(&ordinates[FIRST_INTERVALS..])
}

// The same with each ordinate times its place.
fn moment_sum(ordinates: &[u64]) -> u64
    requires { Balanced ordinates.now }
    ensures { result ≡ moment_of ordinates.now }
{
    let mut moments = [0u64; MOST_STATIONS];
    for (i, ordinate) in ordinates.iter().enumerate() {
        moments[i] = *ordinate * i as u64;
    }
    curve_sum(&moments[..ordinates.len()])
}

impl HullUpTo<'_> {
    // Station i.
    fn section_at(&self, i: usize) -> Section
        requires { i ≤ self.now.particulars.n }
        ensures { SectionOf self.now.half_breadths.now self.now.particulars i self.now.waterline result }
    {
        let keel = i * (self.particulars.m + 1);
        let station = &self.half_breadths[keel..keel + self.waterline + 1];
        let area = curve_sum(station);
        let moment = moment_sum(station);
        let half_breadth = station[self.waterline];
        Section {
            area,
            moment,
            half_breadth,
        }
    }

    // Every station.
    fn sections(&self) -> Sections
        ensures { SectionsOf self.now.half_breadths.now self.now.particulars self.now.waterline result }
    {
        let mut areas = [0u64; MOST_STATIONS];
        let mut moments = [0u64; MOST_STATIONS];
        let mut half_breadths = [0u64; MOST_STATIONS];
        let mut cubes = [0u64; MOST_STATIONS];
        for i in 0..self.particulars.n + 1 {
            let section = self.section_at(i);
            let y = section.half_breadth;
            areas[i] = section.area;
            moments[i] = section.moment;
            half_breadths[i] = y;
            cubes[i] = y * y * y;
        }
        Sections {
            areas,
            moments,
            half_breadths,
            cubes,
        }
    }

    // The five sums of the waterline's row: along the length, the sections' and the waterline's own.
    fn sums(&self) -> Sums
        ensures { result ≡ sums_at self.now.half_breadths.now self.now.particulars self.now.waterline }
    {
        let stations = self.particulars.n + 1;
        let Sections {
            areas,
            moments,
            half_breadths,
            cubes,
        } = self.sections();
        Sums {
            sum: curve_sum(&areas[..stations]),
            sz: curve_sum(&moments[..stations]),
            sx: moment_sum(&areas[..stations]),
            q: curve_sum(&half_breadths[..stations]),
            c: curve_sum(&cubes[..stations]),
        }
    }
}

// The five sums of every row of a hull, whose half-breadths are tried first; none where one is out of range.
pub(crate) fn hull_sums(hull: Hull) -> Option<[Sums; MOST_ROWS]>
    ensures { TriedSums hull.entry.half_breadths.now hull.entry.particulars result }
{
    let Hull {
        half_breadths,
        particulars,
    } = hull;
    if ranges::first_outside(half_breadths, Record::HalfBreadth).is_some() {
        return None;
    }
    let mut sums = [Sums::default(); MOST_ROWS];
    for r in 0..particulars.m - 1 {
        let part = HullUpTo {
            half_breadths,
            particulars,
            waterline: r + FIRST_WATERLINE,
        };
        sums[r] = part.sums();
    }
    Some(sums)
}
