// What a damping rule is: a yes or no behind one trait with two laws; the AASHTO table, EN 1998-1, either of two.

#![tactic(auto)]

mod compound;
mod eurocode;
mod fractions;
mod rule;
mod table;

pub use eurocode::EurocodeRule;
pub use rule::DampingRule;
pub use table::TableRule;
