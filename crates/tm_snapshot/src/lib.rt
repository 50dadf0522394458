//! What a finished backup does to the records of a store (`docs/RECORDS.md`, "Stores"): which it
//! puts, and what they make of the store.
#![tactic(auto)]

mod laws;
mod records;
mod staged;

pub use laws::{built_may_grow, completed_is_sized, need_is_told, puts_fit, puts_grow};
pub use records::all_records;
pub use staged::leftover;
