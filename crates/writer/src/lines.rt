// The lines of a file, put one after another.
ghost use Rattle.std.specs.Prelude.{◌++◌, ◌∷◌, [], ◌<◌, map, length};
ghost use Rattle.numerals.specs.Printed.{printed};
ghost use Rattle.numerals.specs.Pieces.{Puts, HasRoom};
ghost use Rattle.writer.specs.Written.{line};
ghost use Rattle.writer.specs.Private.Putting.{table_text};

use numerals::{Lines, Printable};

// Puts a count on a line of its own, and then a table on lines of a width.
pub(crate) fn put_table<N: Printable>(to: &mut Lines<'_>, count: usize, table: &[N], width: usize)
    requires some { 0 < width }
    requires room { HasRoom (length (table_text count width (map N.value table.now))) to.old }
    ensures { Puts (table_text count width (map N.value table.now)) to.old to.new }
{
    put_line(to, &[count as u64]);
    for line in table.chunks_exact(width) {
        put_line(to, line);
    }
}

// Puts numbers on a line: a space after each, and a line feed after the last.
fn put_line<N: Printable>(to: &mut Lines<'_>, numbers: &[N])
    requires some { 0 < length numbers.now }
    requires room { HasRoom (length (line (map N.value numbers.now))) to.old }
    ensures { Puts (line (map N.value numbers.now)) to.old to.new }
{
    let last = numbers.len() - 1;
    for number in &numbers[..last] {
        put_number(to, *number, b' ');
    }
    put_number(to, numbers[last], b'\n');
}

// Puts a number, and a separator after it.
fn put_number<N: Printable>(to: &mut Lines<'_>, number: N, separator: u8)
    requires { HasRoom (length (printed (N.value number) ++ separator ∷ [])) to.old }
    ensures { Puts (printed (N.value number) ++ separator ∷ []) to.old to.new }
{
    to.put_number(number);
    to.put_byte(separator);
}
