// The offset file and its reader. Nothing here knows of hulls.
#![tactic(auto)]

mod reader;
mod reading;
mod tokens;

use ranges::Particulars;
pub use reader::read_file;

// What a file says beside its tables: the particulars, and how many items and tanks there are.
#[derive(Clone, Copy, Debug, PartialEq, Eq)]
pub struct Summary {
    pub particulars: Particulars,
    pub items: usize,
    pub tanks: usize,
}
