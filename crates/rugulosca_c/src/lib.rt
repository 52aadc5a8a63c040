// A crate is a library or a static library, and C needs these names: so each call stands in both.
// The calls of crate rugulosca under their names in C, as include/rugulosca.h declares them. Each hands on what it was given,
// and promises what the call of its name promises.
#![tactic(auto)]

mod conditions;
mod files;
mod hulls;
mod inclinings;
mod profiles;
mod sheets;
mod surfaces;
mod tallies;
