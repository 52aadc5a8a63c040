// Numbers that know nothing of ships: rounding up, and the crossing between a signed 64-bit number and a whole one.
// No other crate looks into a machine word: what it needs of a signed number it asks of these functions.
#![tactic(auto)]

ghost use Rattle.std.specs.Prelude.{◌≡◌, pos, neg_ℤ, nat_abs, ◌-ℤ◌, get_or};
ghost use Rattle.arithmetic.specs.Rounding.{rounded_up};
ghost use Rattle.arithmetic.specs.Signed.{is_negative, nearest};

// The quotient a / b, rounded up; 0 where b is 0.
#[tactic(auto, unfolding(crate::specs::Rounding::rounded_up))]
pub fn rounded_up(a: u64, b: u64) -> u64
    ensures { result ≡ rounded_up a b }
{
    if b == 0 {
        return 0;
    }
    a.div_ceil(b)
}

pub fn is_negative(v: i64) -> bool
    ensures { result ≡ is_negative v }
{
    v.is_negative()
}

// How far v is from 0.
pub fn magnitude(v: i64) -> u64
    ensures { result ≡ nat_abs v }
{
    v.unsigned_abs()
}

// n as a signed number, or the largest where n is larger.
#[tactic(auto, unfolding(crate::specs::Signed::nearest))]
pub fn signed(n: u64) -> i64
    ensures { result ≡ nearest (pos n) }
{
    i64::try_from(n).unwrap_or(i64::MAX)
}

// n below 0, or the least signed number where that is not as low.
#[tactic(auto, unfolding(crate::specs::Signed::nearest))]
pub fn negated(n: u64) -> i64
    ensures { result ≡ nearest (neg_ℤ (pos n)) }
{
    0i64.saturating_sub_unsigned(n)
}

// How far apart two whole numbers are.
pub fn apart(a: u64, b: u64) -> u64
    ensures { result ≡ nat_abs (pos a -ℤ pos b) }
{
    a.abs_diff(b)
}

// a less b, or the end of the signed numbers that is nearer.
pub fn difference(a: u64, b: u64) -> i64
    ensures { result ≡ nearest (pos a -ℤ pos b) }
{
    if a < b {
        return negated(b - a);
    }
    signed(a - b)
}

// The number at place i of a table, or 0 beyond its end.
pub fn number_at(table: &[i64], i: usize) -> i64
    ensures { result ≡ get_or table.now i (pos 0) }
{
    table.get(i).copied().unwrap_or(0)
}

// How far the number at place i of a table is from 0; 0 beyond its end.
pub fn size_at(table: &[i64], i: usize) -> u64
    ensures { result ≡ nat_abs (get_or table.now i (pos 0)) }
{
    magnitude(number_at(table, i))
}
