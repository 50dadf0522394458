//! The plain volume and the plain store: whole trees in memory (`docs/DEFINITIONS.md`).
#![tactic(auto)]

mod effects;
mod items;
mod labelled;
mod paths;
mod refusals;
mod store;
mod touches;
mod tree;
mod view;
mod volume;

pub use items::Entry;
pub use labelled::LabelledTree;
pub use store::{Snapshot, Source, Store};
pub use tree::Tree;
pub use view::FixedPaths;
pub use volume::Volume;

#[cfg(test)]
mod tests;
