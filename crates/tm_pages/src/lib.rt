//! The text of a table in pages.
//!
//! A page is a block that begins with 1 to 4,096 bytes of the text; what follows in the block isn't
//! read. The pages in order give the text. Two pages that follow each other hold together at least
//! 4,097 bytes, so a text of `L` bytes has at most `2 * (L / 4097) + 1` pages (`docs/FORMATS.md`,
//! "Pages"). An edit of the text cuts anew only the pages that it touches and their neighbours; all
//! others stay at their blocks. None of these calls syncs.
#![tactic(auto)]

mod cut;
mod directory;
mod error;
mod give;
mod laws;
mod page;
mod plan;
mod read;
mod write;

pub use cut::{Cut, Run};
pub use directory::directory_of;
pub use error::{PagesError, PlanError};
pub use give::give_gone;
pub use laws::{directories_are_one, paged_texts_are_short, plans_hold_text};
pub use page::Page;
pub use plan::{Plan, cut_count, plan_pages};
pub use read::{Paged, read_pages};
pub use write::write_pages;
