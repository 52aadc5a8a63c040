// Where a weight floats among the rows: its draft, and KM there.
ghost use Rattle.std.specs.Prelude.{◌≡◌, ◌+◌, ◌*◌, ◌-◌, ◌/◌, ◌<◌, ◌≤◌};
ghost use Rattle.hydrostatics.specs.Usable.{row_in};
ghost use Rattle.loading.specs.Private.Afloat.{RowBelow, OnLine, Floats, Within};
ghost use Rattle.loading.specs.Paper.{rule_of};
ghost use Rattle.loading.specs.Table.{hull, line, between};

use crate::Reading;
use crate::rows::Rows;
use hydrostatics::Row;

// A draft and the KM at it, mm.
#[derive(Clone, Copy)]
pub(crate) struct Floating {
    pub(crate) draft: u64,
    pub(crate) km: u64,
}

// The height at w of the straight line from a at lo to b at hi, rounded down.
fn on_line(a: u64, b: u64, lo: u64, hi: u64, w: u64) -> u64
    requires { OnLine a b lo hi w }
    ensures { result ≡ line a b lo hi w / (hi - lo) }
{
    (a * (hi - w) + b * (w - lo)) / (hi - lo)
}

// KM of a weight between two rows, by a reading.
fn km_between(reading: Reading, row: Row, next: Row, weight: u64) -> u64
    requires { OnLine row.km next.km row.displacement next.displacement weight }
    ensures { result ≡ (rule_of reading).given (between row next) weight }
{
    match reading {
        Reading::Lesser => row.km.min(next.km),
        Reading::StraightLine => on_line(
            row.km,
            next.km,
            row.displacement,
            next.displacement,
            weight,
        ),
    }
}

// The last of the rows whose displacement is not above the weight.
// Tried one by one, of 19 at most: `partition_point` over records of seven would read the displacement by its place in a row, and rest
// on the rows' rising, which this search needs not know.
fn row_below(rows: Rows, weight: u64) -> usize
    requires { (row_in rows.numbers.now 0).displacement ≤ weight }
    ensures { RowBelow rows.entry.numbers.now weight result }
{
    let last = rows.count() - 1;
    for r in 0..last {
        if weight < rows.displacement(r + 1) {
            return r;
        }
    }
    last
}

// The draft and KM of a weight within the table: at a row's own weight that row's; else the draft lies on the straight line to
// the next, and KM is read between the two.
pub(crate) fn afloat(reading: Reading, rows: Rows, weight: u64) -> Floating
    requires { Within (hull rows.numbers.now) weight }
    ensures { Floats reading rows.entry.numbers.now weight result }
{
    let r = row_below(rows, weight);
    let row = rows.row(r);
    let draft = row.draft;
    let below = row.displacement;
    if weight == below {
        return Floating { draft, km: row.km };
    }
    let next = rows.row(r + 1);
    let above = next.displacement;
    let spacing = rows.row(0).draft / 2;
    Floating {
        draft: draft + on_line(0, spacing, below, above, weight),
        km: km_between(reading, row, next, weight),
    }
}
