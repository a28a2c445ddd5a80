// Searches among the rows, and what lies beside the rows to spare them looks: an index of tips, and notes of the rows in use. Searches stop at the peak, above
// which no row was ever open.
#![tactic(auto)]

pub mod free;
pub mod index;
