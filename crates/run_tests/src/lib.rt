//! Runs of whole scripts over a world in memory, compared with replies that were worked out by hand.
#![tactic(auto)]

#[cfg(test)]
mod pairs;
#[cfg(test)]
mod refusals;
#[cfg(test)]
mod rows;
#[cfg(test)]
mod scripts;
#[cfg(test)]
mod stops;
#[cfg(test)]
mod tests;
