// Reading: an optional minus, the digits after it, and whether they make a number.
// The bytes are passed over once; the first alone is looked at again, for a minus.
ghost use Rattle.std.specs.Prelude.{◌≡◌, ◌≤◌, length};
ghost use Rattle.numerals.specs.Number.{is_digit_count, number_of};
ghost use Rattle.numerals.specs.Front.{numeral_at};
ghost use Rattle.numerals.specs.Private.Sign.{DigitsFrom};

// The number at the front of a text, with the place after it.
#[derive(Clone, Copy, Debug, PartialEq, Eq)]
pub struct Numeral {
    pub value: i64,
    pub stop: usize,
}

// Digits that stand in a text: their value, and the place after them.
#[derive(Clone, Copy)]
struct Digits {
    value: u64,
    stop: usize,
}

// A number has nine digits at the most; one more is taken, and is too many.
const MOST_DIGITS: usize = 9;

const ENOUGH_DIGITS: usize = MOST_DIGITS + 1;

// What a token says, where it is a number.
pub fn read_number(token: &[u8]) -> Option<i64>
    ensures { result ≡ number_of token.now }
{
    let Numeral { value, stop } = numeral_at(token, 0)?;
    (stop == token.len()).then_some(value)
}

// The number that stands in text from place `at` on: an optional minus and the digits after it.
pub fn numeral_at(text: &[u8], at: usize) -> Option<Numeral>
    ensures { result ≡ numeral_at text.now at }
{
    let minus = *text.get(at)? == b'-';
    let start = at + usize::from(minus);
    let Digits { value, stop } = digits_from(text, start);
    if !is_digit_count(stop - start) {
        return None;
    }
    let value = match (minus, value) {
        (false, _) => arithmetic::signed(value),
        // There is no minus zero.
        (true, 0) => return None,
        (true, _) => arithmetic::negated(value),
    };
    Some(Numeral { value, stop })
}

// Whether a number may have so many digits: one to nine. By itself it becomes one comparison; within its caller it is two.
fn is_digit_count(count: usize) -> bool
    ensures { result ≡ is_digit_count count }
{
    (1..=MOST_DIGITS).contains(&count)
}

// The digits from a place on, ten at the most.
fn digits_from(text: &[u8], from: usize) -> Digits
    requires { from ≤ length text.now }
    ensures { DigitsFrom text.now from result }
{
    let end = text.len().min(from + ENOUGH_DIGITS);
    let mut value = 0;
    for stop in from..end {
        let b = text[stop];
        if !b.is_ascii_digit() {
            return Digits { value, stop };
        }
        value = value * 10 + u64::from(b - b'0');
    }
    Digits { value, stop: end }
}
