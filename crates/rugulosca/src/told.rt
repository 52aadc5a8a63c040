// How an answer is told by numbers alone.
ghost use Rattle.std.specs.Prelude.{◌≡◌};
ghost use Rattle.ranges.specs.Reasons.{paper};
ghost use Rattle.rugulosca.specs.Told.{Tells};

use ranges::Refusal;

// What a call returns that is not refused.
const ANSWERED: u64 = 0;

// Leaves the values of an answer, or the refusal's place.
pub(crate) fn tell<T: Copy>(answer: Result<T, Refusal>, values: &mut T, place: &mut usize) -> u64
    ensures { Tells (λ (v : T). v) (paper answer) values.old values.new place.old place.new result }
{
    match answer {
        Ok(told) => {
            *values = told;
            ANSWERED
        }
        Err(refusal) => {
            *place = refusal.place;
            refusal.reason.number()
        }
    }
}
