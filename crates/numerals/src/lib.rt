// A number as text: read at a place of a text, read from a token, and printed into lent room; and a text put there piece by piece.
#![tactic(auto)]

mod lines;
mod printing;
mod reading;

pub use lines::{Lines, Printable};
pub use printing::{print, print_whole};
pub use reading::{Numeral, numeral_at, read_number};
