// Trying numbered cases one after another, and counting those that fail.
ghost use Rattle.std.specs.Prelude.{◌≤◌, length};

use std::io;

// Cases are numbered by three digits.
const NUMBERS: u64 = 1_000;

// What trying a case shows: whether it differs from the answer beside it, and whether what is read of it, written and read again, is
// changed.
#[derive(Clone, Copy)]
pub(crate) struct Trial {
    pub(crate) differs: bool,
    pub(crate) changed: bool,
}

impl Trial {
    // Of a case of which nothing is written again.
    pub(crate) fn beside_answer(differs: bool) -> Trial {
        Trial {
            differs,
            changed: false,
        }
    }
}

// How many cases there are, and how many of them differ or are changed.
#[derive(Clone, Copy, Default)]
pub(crate) struct Count {
    pub(crate) tried: u64,
    pub(crate) differing: u64,
    pub(crate) changed: u64,
}

// Tries the case of each number, where there is one, and names those that fail.
pub(crate) fn try_each<F: Fn(u64) -> io::Result<Option<Trial>>>(
    rt: &impl Print,
    trial_at: F,
) -> io::Result<Count>
    requires { F.IsAlwaysCallable trial_at }
{
    let mut count = Count::default();
    for i in 0..NUMBERS {
        if let Some(trial) = trial_at(i)? {
            count.tried += 1;
            count.differing += u64::from(trial.differs);
            count.changed += u64::from(trial.changed);
            if trial.differs || trial.changed {
                println!(rt; "fails {i}")?;
            }
        }
    }
    Ok(count)
}

// Says where there are fewer than there were, so that a lost one is noticed.
pub(crate) fn print_lost(rt: &impl Print, what: &str, tried: u64, fewest: u64) -> io::Result<()> {
    if tried < fewest {
        println!(rt; "{what} are lost, and only these left {tried}")?;
    }
    Ok(())
}
