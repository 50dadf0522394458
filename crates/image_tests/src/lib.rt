//! Images that are written by hand, record by record: what a run says to those that break a rule, and what it does with
//! those that stand at a bound.
#![tactic(auto)]

#[cfg(test)]
mod filled;
#[cfg(test)]
mod limits;
#[cfg(test)]
mod store_records;
#[cfg(test)]
mod stores;
#[cfg(test)]
mod told;
#[cfg(test)]
mod volume_records;
#[cfg(test)]
mod volumes;
