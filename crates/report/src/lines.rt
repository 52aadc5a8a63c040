// The lines of the sheet, put one after another.
ghost use Rattle.std.specs.Prelude.{◌*◌, ◌/◌, ◌≤◌, ◌≡◌, map, pos, length};
ghost use Rattle.numerals.specs.Pieces.{HasRoom};
ghost use Rattle.ranges.specs.Reasons.{number_of};
ghost use Rattle.ranges.specs.Sizes.{row_width};
ghost use Rattle.report.specs.Lines.{field, fields, line_of, word, condition_line, refusal_line};
ghost use Rattle.report.specs.Private.Putting.{PutsFew, most_field, most_word, most_line, most_condition_line};
ghost use Rattle.report.specs.Sheet.{row_lines};

use hydrostatics::ROW_WIDTH;
use loading::{Condition, Heel};
use numerals::{Lines, Printable};
use ranges::Refusal;

// A number as a field: a space before it.
fn put_field<N: Printable>(to: &mut Lines<'_>, number: N)
    requires { HasRoom most_field to.old }
    ensures { PutsFew most_field (field (N.value number)) to.old to.new }
{
    to.put_byte(b' ');
    to.put_number(number);
}

// Numbers as fields.
fn put_fields<N: Printable>(to: &mut Lines<'_>, numbers: &[N])
    requires { HasRoom (most_field * length numbers.now) to.old }
    ensures { PutsFew (most_field * length numbers.now) (fields (map N.value numbers.now)) to.old to.new }
{
    for number in numbers {
        put_field(to, *number);
    }
}

// A line of whole numbers after its letter.
fn put_line(to: &mut Lines<'_>, letter: u8, numbers: &[u64])
    requires { HasRoom (most_line (length numbers.now)) to.old }
    ensures { PutsFew (most_line (length numbers.now)) (line_of letter (fields (map pos numbers.now))) to.old to.new }
{
    to.put_byte(letter);
    put_fields(to, numbers);
    to.put_byte(b'\n');
}

// The R lines of a table of rows.
pub(crate) fn put_rows(to: &mut Lines<'_>, rows: &[u64])
    requires { HasRoom (most_line row_width * (length rows.now / row_width)) to.old }
    ensures { PutsFew (most_line row_width * (length rows.now / row_width)) (row_lines rows.now 0 (length rows.now / row_width)) to.old to.new }
{
    for row in rows.chunks_exact(ROW_WIDTH) {
        put_line(to, b'R', row);
    }
}

// The outcome's word. No `Display`, which needs a formatter and an error where the words are four constants.
#[tactic(auto, unfolding(crate::specs::Lines::word))]
fn word(heel: Heel) -> &'static [u8]
    ensures word { result.now ≡ word heel }
    ensures few { length result.now ≤ most_word }
{
    match heel {
        Heel::Unstable => b"unstable",
        Heel::Upright => b"upright",
        Heel::Heeled(_) => b"heeled",
        Heel::Beyond => b"beyond",
    }
}

// The C line of a condition.
pub(crate) fn put_condition(to: &mut Lines<'_>, c: Condition)
    requires { HasRoom most_condition_line to.old }
    ensures { PutsFew most_condition_line (condition_line c) to.old to.new }
{
    let wholes = [
        c.weight,
        c.draft,
        c.km,
        c.lcg,
        c.vertical_moment,
        c.free_surface,
    ];
    let signed = [c.gm, c.transverse_moment];
    let passes = u64::from(c.passes);
    to.put_byte(b'C');
    put_fields(to, &wholes);
    put_fields(to, &signed);
    to.put_byte(b' ');
    to.put(word(c.heel));
    put_field(to, passes);
    to.put(b"\n");
}

// The E line of a refusal.
#[tactic(auto, unfolding(crate::specs::Lines::refusal_line))]
pub(crate) fn put_refusal(to: &mut Lines<'_>, refusal: Refusal)
    requires { HasRoom (most_line 2) to.old }
    ensures { PutsFew (most_line 2) (refusal_line (number_of refusal.reason) refusal.place) to.old to.new }
{
    let said = [refusal.reason.number(), refusal.place as u64];
    put_line(to, b'E', &said);
}
