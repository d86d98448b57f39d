// A bridge: a draft on which rows are hung and taken off, the closed bridge that only answers, and whole runs of calls.

#![tactic(auto)]

mod calls;
mod drafting;
mod queries;
mod replies;
mod running;
mod search;

pub use calls::{DraftCall, Question, Response};
pub use drafting::{Bridge, Draft};
pub use replies::Answer;
pub use running::replay;
