// The kinds of bearing that are made now: lead-rubber and pendulum.

#![tactic(auto)]

mod lead;
mod sliding;

pub use lead::LeadRubber;
pub use sliding::Pendulum;
