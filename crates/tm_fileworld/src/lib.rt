//! The outside as it is: images and a script in real files, and standard output.
#![tactic(auto)]

mod image;
mod images;
mod streams;
mod world;

pub use world::FileWorld;
