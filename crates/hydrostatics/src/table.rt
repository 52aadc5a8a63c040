// The table of rows, from the five sums of each on: each row is made from its sums and tried, and only when all have passed is each
// made again and written into its part of the lent table. How the sums are made, no function here knows.
ghost use Rattle.std.specs.Prelude.{◌≡◌, ◌++◌, ◌*◌, ◌≤◌, length, drop};
ghost use Rattle.ranges.specs.Sizes.{row_width, rows_over};
ghost use Rattle.ranges.specs.Private.InRange.{ParticularsInRange};
ghost use Rattle.hydrostatics.specs.Row.{row_from, numbers_of};
ghost use Rattle.hydrostatics.specs.Private.Sums.{SumsWithin, AllWithin};
ghost use Rattle.hydrostatics.specs.Private.Table.{numbers_up_to, rows_from, TriedRows, FillsRows};

use crate::{ROW_WIDTH, Row};
use ranges::{HIGHEST_METACENTRE, Particulars, Reason, Refusal};

// The five sums that the row of a waterline is made of: S, Sz and Sx over its waterlines, Q and C of its own.
#[derive(Clone, Copy, Default)]
pub(crate) struct Sums {
    pub sum: u64,
    pub sz: u64,
    pub sx: u64,
    pub q: u64,
    pub c: u64,
}

// Row r belongs to waterline r + 2.
pub(crate) const FIRST_WATERLINE: usize = 2;

// Both sides of a hull hold 2·s·d·S/24² mm³, and a cubic metre is 10⁹ mm³: s·d·S·density is so many times the displacement.
const VOLUME_UNITS: u64 = 288_000_000_000;

// The row of waterline k, from its sums. Where S is 0 the quotients by it are 0, as the row's displacement is.
fn row_from(p: Particulars, k: usize, sums: Sums) -> Row
    requires { ParticularsInRange p × SumsWithin k sums }
    ensures { result ≡ row_from p k sums }
{
    let Particulars { s, d, density, .. } = p;
    let Sums { sum, sz, sx, q, c } = sums;
    let draft = d * k as u64;
    let displacement = s * d * sum * density / VOLUME_UNITS;
    let area = s * q / 12;
    if sum == 0 {
        return Row {
            draft,
            displacement,
            lcb: 0,
            kb: 0,
            bm: 0,
            km: 0,
            area,
        };
    }
    let lcb = s * sx / sum;
    let kb = d * sz / sum;
    let ds = d * sum;
    let bm = 8 * c / ds;
    let km = (d * d * sz + 8 * c) / ds;
    Row {
        draft,
        displacement,
        lcb,
        kb,
        bm,
        km,
        area,
    }
}

// The five sums of each row of a hull, none of them too large, beside its particulars.
#[derive(Clone, Copy)]
pub(crate) struct RowSums<'a> {
    pub particulars: Particulars,
    pub sums: &'a [Sums],
    ghost within: { AllWithin particulars sums.now },
}

impl RowSums<'_> {
    // The rows made and tried, row by row upward: how many there are.
    fn try_rows(&self) -> Result<usize, Refusal>
        ensures { TriedRows (rows_from self.now.particulars self.now.sums.now) (length self.now.sums.now) result }
    {
        let mut before: u64 = 0;
        for (r, five) in self.sums.iter().enumerate() {
            let row = row_from(self.particulars, r + FIRST_WATERLINE, *five);
            if row.displacement <= before {
                return Err(Reason::DisplacementNotRising.at(r));
            }
            if HIGHEST_METACENTRE < row.km {
                return Err(Reason::MetacentreTooHigh.at(r));
            }
            before = row.displacement;
        }
        Ok(self.sums.len())
    }

    // Each row made, into the part of the table that starts at seven times its number.
    fn write_rows(&self, rows: &mut [u64])
        requires { row_width * length self.now.sums.now ≤ length rows.old }
        ensures { rows.new ≡ numbers_up_to (rows_from self.now.particulars self.now.sums.now) (length self.now.sums.now) ++ drop (row_width * length self.now.sums.now) rows.old }
    {
        // By the place and not by `chunks_exact_mut`, after which a proof knows no number of the table.
        for (r, five) in self.sums.iter().enumerate() {
            let made = row_from(self.particulars, r + FIRST_WATERLINE, *five);
            let at = ROW_WIDTH * r;
            rows[at..at + ROW_WIDTH].copy_from_slice(&made.numbers());
        }
    }

    // The rows into the lent table: tried first, with the table untouched, and written once all have passed.
    pub(crate) fn fill(&self, rows: &mut [u64]) -> Result<usize, Refusal>
        requires { row_width * length self.now.sums.now ≤ length rows.old }
        ensures { FillsRows (rows_from self.now.particulars self.now.sums.now) (length self.now.sums.now) result rows.old rows.new }
    {
        let count = self.try_rows()?;
        self.write_rows(rows);
        Ok(count)
    }
}
