// The sheet.
ghost use Rattle.std.specs.Prelude.{◌≡◌, length};
ghost use Rattle.arithmetic.specs.Room.{laid};
ghost use Rattle.report.specs.Promise.{report_of, report_by};
ghost use Rattle.report.specs.Sheet.{sheet_of, sheet_by};
ghost use Rattle.rugulosca.specs.Told.{Tells};

use crate::told::tell;
use loading::Reading;

// From a file's text to the sheet's lines, and how many bytes they take, with the lesser KM between two rows.
pub fn rugulosca_report(text: &[u8], room: &mut [u8], count: &mut usize, place: &mut usize) -> u64
    ensures tells { Tells (λ n. n) (report_of text.now (length room.old)) count.old count.new place.old place.new result }
    ensures room_after { room.new ≡ laid (sheet_of text.now) room.old }
{
    let answer = report::make_report(text, room);
    tell(answer, count, place)
}

// The same with KM on the straight line between two rows.
pub fn rugulosca_report_straight_line(
    text: &[u8],
    room: &mut [u8],
    count: &mut usize,
    place: &mut usize,
) -> u64
    ensures tells { Tells (λ n. n) (report_by Reading.StraightLine text.now (length room.old)) count.old count.new place.old place.new result }
    ensures room_after { room.new ≡ laid (sheet_by Reading.StraightLine text.now) room.old }
{
    let answer = report::make_report_by(Reading::StraightLine, text, room);
    tell(answer, count, place)
}
