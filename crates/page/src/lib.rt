// The page that other programs read: a line of names, a line for each load case, and a last line.

#![tactic(auto)]

mod lines;
mod paper;
mod refused;
mod texts;

pub use paper::Page;
pub use refused::write_refusal;
