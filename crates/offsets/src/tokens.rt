// Tokens by place. Each byte of a text is looked at once, but for a token's first byte and the separator after it.
// Functions of a text and a place, and no methods of `Cursor`: each looks at a place of its own, and moves nothing on.
ghost use Rattle.std.specs.Prelude.{◌≡◌, length};
ghost use Rattle.offsets.specs.Tokens.{is_separator};
ghost use Rattle.offsets.specs.Private.Steps.{Finds, FindsAt, tokens_at, ends_here, place_after, IsByte, FirstByte};

use numerals::Numeral;

// What stands next in a text: the place of a token's first byte, and the number that it is, if it is one.
#[derive(Clone, Copy)]
pub(crate) struct Found {
    pub at: usize,
    pub number: Option<Numeral>,
}

// The first token from a place on that stands in no token. In line, as the cursor's steps that stand on it are.
#[inline(always)]
pub(crate) fn next_token(text: &[u8], from: usize) -> Option<Found>
    ensures { Finds text.now (tokens_at text.now from) result }
{
    let at = first_byte(text, from)?;
    let number = number_at(text, at);
    Some(Found { at, number })
}

// The number that the token at a place is, if it is one.
fn number_at(text: &[u8], at: usize) -> Option<Numeral>
    requires { IsByte text.now at }
    ensures { FindsAt text.now (tokens_at text.now at) at result }
{
    let numeral = numerals::numeral_at(text, at)?;
    if ends_here(text, numeral.stop) {
        Some(numeral)
    } else {
        None
    }
}

// The place of the token after `count` numbers from a place on.
pub(crate) fn place_after(text: &[u8], from: usize, count: usize) -> Option<usize>
    ensures { result ≡ place_after count (tokens_at text.now from) }
{
    let mut next = from;
    for _passed in 0..count {
        next = next_token(text, next)?.number?.stop;
    }
    Some(next_token(text, next)?.at)
}

// The place of the first byte from a place on that is no separator.
// By an index: the library's `position` takes three instructions more for each number. Out of line: within its caller's walk the step over
// a separator takes half as many again.
#[inline(never)]
fn first_byte(text: &[u8], from: usize) -> Option<usize>
    ensures { FirstByte text.now from result }
{
    for at in from..text.len() {
        if !is_separator(text[at]) {
            return Some(at);
        }
    }
    None
}

// Whether a token that ends before this place has no byte here.
fn ends_here(text: &[u8], place: usize) -> bool
    ensures { result ≡ ends_here text.now place }
{
    place >= text.len() || is_separator(text[place])
}

// One by one: of this the program makes one test of a bit, and of `matches!` a comparison for each.
#[tactic(auto, unfolding(crate::specs::Tokens::is_separator))]
fn is_separator(b: u8) -> bool
    ensures { result ≡ is_separator b }
{
    if b == b' ' {
        true
    } else if b == b'\n' {
        true
    } else if b == b'\t' {
        true
    } else {
        b == b'\r'
    }
}
