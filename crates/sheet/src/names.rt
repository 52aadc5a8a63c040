// The readings of KM by name.
ghost use Rattle.sheet.specs.Names.{Names, Asks};

use loading::Reading;
use std::env::FillError;
use std::rt::Env;

// The longest name is "straight-line". A word that is longer is none.
const LONGEST_NAME: usize = 13;

// The reading that this word names.
fn reading_of(word: &[u8]) -> Option<Reading>
    ensures { Names word.now result }
{
    match word {
        b"lesser" => Some(Reading::Lesser),
        b"straight-line" => Some(Reading::StraightLine),
        _ => None,
    }
}

// The reading that so many words ask for, the program's own name the first and this one after it.
fn meant(words: usize, word: &[u8]) -> Option<Reading>
    ensures { Asks words word.now result }
{
    if words < 2 {
        return Some(Reading::DEFAULT);
    }
    if 2 < words {
        return None;
    }
    reading_of(word)
}

// How many words there are on the command line, the program's own name among them.
fn count_words(rt: &HostRuntime) -> usize {
    (0..usize::MAX)
        .find(|i| matches!(rt.arg(*i, &mut []), Err(FillError::NotPresent)))
        .unwrap_or(usize::MAX)
}

// The reading that the command line asks for. `Env::arg` and not `env::args`, which takes no word that is not UTF-8.
pub(crate) fn asked(rt: &HostRuntime) -> Option<Reading> {
    let mut word = [0u8; LONGEST_NAME];
    // A word that is missing or longer counts as empty, which is no name.
    let length = rt.arg(1, &mut word).unwrap_or(0);
    meant(count_words(rt), &word[..length])
}
