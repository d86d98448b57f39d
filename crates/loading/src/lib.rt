// What a bridge has to bear: the deck's weight, a load case, and the demand of the two.

#![tactic(auto)]

mod cases;
mod loads;
mod weighing;

pub use cases::Case;
pub use loads::{CaseNumbers, Site};
pub use weighing::Weight;
