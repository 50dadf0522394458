//! What images hold after runs: beside the plain machine line by line, and what snapshots share.
#![tactic(auto)]

#[cfg(test)]
mod compared;
#[cfg(test)]
mod full;
#[cfg(test)]
mod reloaded;
#[cfg(test)]
mod sharing;
