//! Replies to the lines of a script, and the one text of each (`docs/SCRIPT.md`, "Replies").
#![tactic(auto)]

mod laws;
mod refusal;
mod reply;
mod row;
mod words;

pub use laws::{each_text_closes_once, reply_is_some, texts_split_in_one_way, words_decode};
pub use reply::{Reply, ReplyRows, print};
pub use row::{Attributes, Kind, ListedName, ReplyRow};

#[cfg(test)]
mod tests;
