// Simpson's first and second rules, joined: the multiplier at each station, and the sum over a curve.
#![tactic(auto)]

ghost use Rattle.std.specs.Prelude.{◌≡◌, ◌≤◌};
ghost use Rattle.simpson.specs.Multipliers.{multiplier as Multipliers·multiplier};
ghost use Rattle.simpson.specs.Private.Places.{repeated_first, second_last};
ghost use Rattle.simpson.specs.Curve.{curve_sum_of};

// Constants, and no struct for each rule: each place below and in the crates above names the rule that it means, and none is handed a rule.

// The first rule covers two intervals. Its multipliers, in 24ths of one: at its ends, between them, and where it meets itself.
pub const FIRST_INTERVALS: usize = 2;

pub const FIRST_END: u64 = 8;

pub const FIRST_BETWEEN: u64 = 32;

const FIRST_MEETS_FIRST: u64 = 16;

// The second rule covers three. At its ends, between them, and where the first rule meets it.
pub const SECOND_INTERVALS: usize = 3;

pub const SECOND_END: u64 = 9;

pub const SECOND_BETWEEN: u64 = 27;

const FIRST_MEETS_SECOND: u64 = 17;

// Two intervals have three ordinates, and no rule covers fewer.
const LEAST_ORDINATES: usize = 3;

// Why a curve has no sum.
#[derive(Clone, Copy, Debug, PartialEq, Eq)]
pub enum CurveError {
    // Fewer than three ordinates.
    TooShort,
    // More than 64 bits hold.
    TooLarge,
}

// Station and count are two numbers in the three functions below, and no struct: callers count both, and each test would take it apart.

// The first rule, repeated over n intervals.
#[tactic(auto, using(arithmetic::proofs::Choice::told), unfolding(crate::specs::Private::Places::repeated_first))]
fn repeated_first(n: usize, i: usize) -> u64
    ensures { result ≡ repeated_first n i }
{
    if i == 0 || i == n {
        FIRST_END
    } else if i % 2 == 0 {
        FIRST_MEETS_FIRST
    } else {
        FIRST_BETWEEN
    }
}

// The second rule on the last three of n intervals, and the first rule before them.
#[tactic(auto, using(arithmetic::proofs::Choice::told), unfolding(crate::specs::Private::Places::second_last))]
fn second_last(n: usize, i: usize) -> u64
    requires { i ≤ n }
    ensures { result ≡ second_last n i }
{
    let left = n - i;
    // Tests, since a match of `left` by ranges takes more instructions.
    if left == 0 {
        SECOND_END
    } else if left < SECOND_INTERVALS {
        SECOND_BETWEEN
    } else if SECOND_INTERVALS < left {
        repeated_first(n, i)
    } else if i == 0 {
        SECOND_END
    } else {
        FIRST_MEETS_SECOND
    }
}

// The multiplier of station i over n intervals, in 24ths; 0 where there is no such station, or no rule for so few intervals. 0 and
// no `Option`, as the definition says it, which the laws of every crate above cite.
#[tactic(auto, using(arithmetic::proofs::Choice::told, crate::proofs::ByPlace::by_place), unfolding(crate::specs::Private::Places::placed))]
pub fn multiplier(n: usize, i: usize) -> u64
    ensures { result ≡ Multipliers·multiplier n i }
{
    if n < FIRST_INTERVALS || n < i {
        0
    } else if n % 2 == 0 {
        repeated_first(n, i)
    } else {
        second_last(n, i)
    }
}

// The sum over the curve through these ordinates, one at each station, in 24ths of its interval.
pub fn curve_sum(ordinates: &[u64]) -> Result<u64, CurveError>
    ensures { result ≡ curve_sum_of ordinates.now }
{
    if ordinates.len() < LEAST_ORDINATES {
        return Err(CurveError::TooShort);
    }
    let n = ordinates.len() - 1;
    let mut sum: u64 = 0;
    for (i, y) in ordinates.iter().enumerate() {
        let u = multiplier(n, i);
        // 128 bits hold the next sum whatever the ordinate, and 64 must. So asked it takes fewer instructions than `checked_mul` and `checked_add`.
        let next = u128::from(sum) + u128::from(u) * u128::from(*y);
        sum = u64::try_from(next).map_err(|_| CurveError::TooLarge)?;
    }
    Ok(sum)
}
