//! The gate of an image: a selector and two slots, through which one root takes the place of
//! another so that a stop leaves the old one or the new (`docs/FORMATS.md`, "Selector and slots").
#![tactic(auto)]

mod field;
mod gate;
mod laws;
mod load;
mod root;
mod turning;

pub use gate::Gate;
pub use laws::{one_slot_is_whole, roots_are_good, sequence_is_free, slots_spell_one};
pub use load::{GateError, load_gate};
pub use root::Root;
pub use turning::turn;

#[cfg(test)]
mod tests;
