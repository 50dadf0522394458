//! The outside in memory: images and scripts by path, calls that fail on demand, and a record from
//! which what was outside at each moment can be told.
#![tactic(auto)]

mod change;
mod devices;
mod error;
mod plan;
mod room;
mod script;
mod site;
#[cfg(test)]
mod tests;
mod world;

pub use error::Memory;
pub use world::{MemWorld, tells};
