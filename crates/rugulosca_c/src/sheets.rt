// The sheet as one call, under its names in C.
ghost use Rattle.std.specs.Prelude.{◌≡◌, length};
ghost use Rattle.arithmetic.specs.Room.{laid};
ghost use Rattle.report.specs.Promise.{report_of, report_by};
ghost use Rattle.report.specs.Sheet.{sheet_of, sheet_by};
ghost use Rattle.rugulosca.specs.Told.{Tells};

use loading::Reading;

// From a file's text to the sheet's lines, and how many bytes they take, with the lesser KM between two rows.
#[unsafe(no_mangle)]
pub extern "C" fn rugulosca_report(
    text: &[u8],
    room: &mut [u8],
    count: &mut usize,
    place: &mut usize,
) -> u64
    ensures tells { Tells (λ n. n) (report_of text.now (length room.old)) count.old count.new place.old place.new result }
    ensures room_after { room.new ≡ laid (sheet_of text.now) room.old }
{
    rugulosca::sheets::rugulosca_report(text, room, count, place)
}

// The same with KM on the straight line between two rows.
#[unsafe(no_mangle)]
pub extern "C" fn rugulosca_report_straight_line(
    text: &[u8],
    room: &mut [u8],
    count: &mut usize,
    place: &mut usize,
) -> u64
    ensures tells { Tells (λ n. n) (report_by Reading.StraightLine text.now (length room.old)) count.old count.new place.old place.new result }
    ensures room_after { room.new ≡ laid (sheet_by Reading.StraightLine text.now) room.old }
{
    rugulosca::sheets::rugulosca_report_straight_line(text, room, count, place)
}
