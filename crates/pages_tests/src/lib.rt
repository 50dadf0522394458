//! Tables in pages over an image in memory: changed, read again and compared, and damaged.
#![tactic(auto)]

#[cfg(test)]
mod damage;
mod failure;
mod table;
#[cfg(test)]
mod tables;
