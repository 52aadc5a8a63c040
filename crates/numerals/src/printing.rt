// Printing into lent room. Where the room is too short it stays as it was, and the answer says how much is needed: a length and no
// `Result`, since `Prints`, which the promise names, says that it is the text's in either case.
ghost use Rattle.std.specs.Prelude.{true, ◌≡◌, ◌<◌, pos};
ghost use Rattle.numerals.specs.Printed.{Prints};
ghost use Rattle.numerals.specs.Private.Sign.{with_sign};

// The largest u64 has twenty digits.
const MOST_PRINTED_DIGITS: usize = 20;

// Puts v's text at the front of the room, where it fits, and answers the text's length.
pub fn print(v: i64, room: &mut [u8]) -> usize
    ensures { Prints v room.old room.new result }
{
    print_signed(arithmetic::is_negative(v), arithmetic::magnitude(v), room)
}

// The same for a whole number that may be larger than any signed one: of the two calls each is one line over `print_signed`.
pub fn print_whole(n: u64, room: &mut [u8]) -> usize
    ensures { Prints (pos n) room.old room.new result }
{
    print_signed(false, n, room)
}

// The same for a number by its sign and its size.
fn print_signed(minus: bool, n: u64, room: &mut [u8]) -> usize
    requires { minus ≡ true → 0 < n }
    ensures { Prints (with_sign minus n) room.old room.new result }
{
    // An array and a count, since nothing is allocated.
    let mut digits = [0u8; MOST_PRINTED_DIGITS];
    let count = io::decimal(n, &mut digits);
    let start = usize::from(minus);
    let length = start + count;
    if room.len() < length {
        return length;
    }
    // Where there is no minus, the first digit takes its place.
    room[0] = b'-';
    room[start..length].copy_from_slice(&digits[..count]);
    length
}
