//! The event journal of a volume: which folders were touched since when (`docs/DEFINITIONS.md`,
//! "The journal").
#![tactic(auto)]

mod journal;
mod kept;
mod laws;
mod since;

pub use journal::Journal;
pub use laws::{
    drop_covers_all, drop_stays_keepable, keepable_are_above_zero, later_stays_keepable,
    touch_stays_covered, touches_stay_covered, touches_stay_keepable,
};
pub use since::Since;

#[cfg(test)]
mod tests;
