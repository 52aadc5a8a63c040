// The calls for other languages, by numbers and slices alone. A call returns 0 and leaves its values, or returns the number of
// its refusal and leaves the refusal's place; what it does not leave stays as it was. include/rugulosca.h says the same in C.
// Where two calls differ by the reading of KM or by the calculation alone, both stay: their names are C's. How a value lies in numbers
// is said here, in functions by name: the arrays are C's, and the crates below need not know them.
#![tactic(auto)]

pub mod conditions;
pub mod files;
pub mod hulls;
pub mod inclinings;
pub mod profiles;
pub mod sheets;
pub mod surfaces;
pub mod tallies;
mod told;
