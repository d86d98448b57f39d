// The whole job: a sheet in, a page out.

#![tactic(auto)]

mod job;
mod spare;

pub use job::{Job, PAGE_SPACE, Summary, answer_sheet};
