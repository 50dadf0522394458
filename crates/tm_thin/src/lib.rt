//! Which snapshots stay when old ones are thinned out (`docs/DEFINITIONS.md`, "Thinning").
#![tactic(auto)]

mod laws;
mod thinning;

pub use laws::buckets_keep_one;
pub use thinning::{Bucket, keep};

#[cfg(test)]
mod tests;
