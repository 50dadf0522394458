//! Changes of a volume (`docs/DEFINITIONS.md`): how each is planned, as an edit of the volume's
//! records or as the reason why it is refused, and how it is made, in one commit.
//!
//! A stop leaves the volume before the change or after it.
#![tactic(auto)]

mod attrs;
mod commit;
mod creation;
mod data;
mod destination;
mod files;
mod fixing;
mod moving;
mod new_items;
mod place;
mod removing;
mod target;
mod touched;
mod with_data;
mod without_data;

pub use commit::change;
