//! Gates, chains and blobs over images in memory, compared with bytes and answers that were worked out by hand.
#![tactic(auto)]

#[cfg(test)]
mod chain;
#[cfg(test)]
mod gate;
#[cfg(test)]
mod image;
