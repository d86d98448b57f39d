// What a bearing is: force and energy behind one trait with four laws, either of two kinds, groups, the ranges, and
// why a call is refused.

#![tactic(auto)]

mod compound;
mod fault;
mod ranges;
mod traits;
mod words;

pub use compound::{Group, check_count};
pub use fault::{Fault, Layer, Refusal, at_field, on_line, refusal_number};
pub use ranges::{
    TOP_FACTOR, TOP_FORCE, TOP_TRAVEL, check_force, check_range, nearest_factor, nearest_travel,
};
pub use traits::{Bearing, SheetKind};
