//! The session: one line of a script after the other, on a volume and a store.
//!
//! What it must do is the plain machine of `docs/DEFINITIONS.md`, whose definition stands in
//! `specs/`: the state, the step of a line, the run over a list of lines, and the commits, of which
//! a stop leaves a prefix.
#![tactic(auto)]

mod backup;
mod changing;
mod formatting;
mod laws;
mod listing;
mod measures;
mod opening;
mod session;
mod store;
mod stored;
mod volume;

pub use changing::change_of;
pub use laws::{commits_end, plain_is_history, plain_where_fits, session_is_left};
pub use session::{LineEnd, Session, SessionError};
