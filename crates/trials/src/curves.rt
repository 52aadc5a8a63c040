// The worked example of the course notes: a semicircle of radius 6, by three, four and five ordinates. Its areas there: 48, 50.912 and 53.569.
use simpson::CurveError;
use std::io;

// Ordinates in millionths; 6, 4 and 3 are the intervals.
pub(crate) fn print_all(rt: &impl Print) -> io::Result<()> {
    print_area(rt, 24_000 / 6, &[0, 6_000_000, 0])?;
    print_area(rt, 24_000 / 4, &[0, 5_656_854, 5_656_854, 0])?;
    print_area(rt, 24_000 / 3, &[0, 5_196_152, 6_000_000, 5_196_152, 0])
}

// The area in thousandths, given how many parts of the sum make one.
fn print_area(rt: &impl Print, parts: u64, ordinates: &[u64]) -> io::Result<()> {
    match simpson::curve_sum(ordinates) {
        Ok(sum) => println!(rt; "semicircle {}", nearest(sum, parts)),
        Err(CurveError::TooShort) => println!(rt; "too short"),
        Err(CurveError::TooLarge) => println!(rt; "too large"),
    }
}

// The quotient rounded to the nearest; 0 where the divisor is, or the sum is larger than any here.
fn nearest(sum: u64, parts: u64) -> u64 {
    if parts == 0 || 1_000_000_000 < sum {
        return 0;
    }
    (sum + parts / 2) / parts
}
