//! Which runs of pages a change of records touches, and the new text of each, spelled from the
//! records about it alone.
//!
//! A holder is kept for each page: the key of the record that has the page's first byte, and how
//! many of that record's bytes stand before the page. That and the records are all that is needed:
//! no text of the table is kept or spelled.
#![tactic(auto)]

mod after;
mod encode;
mod find;
mod holder;
mod laws;
mod runs;

pub use after::{holder_after, holders_after_plan, holders_from, holders_of};
pub use encode::encode_run;
pub use find::{Touched, find_pages};
pub use holder::Holder;
pub use laws::{changes_are_by_key, runs_change_the_text, runs_fit_pages, untouched_pages_are_far};
pub use runs::runs_of;
