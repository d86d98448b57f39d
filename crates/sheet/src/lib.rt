// Bytes of a sheet to its weight, rows and load cases, or to the refusal.

#![tactic(auto)]

mod caselines;
mod drafts;
mod machine;
mod numbers;
mod parts;
mod reading;
mod rowlines;

pub use caselines::{Numbers, SheetRule};
pub use drafts::{SheetDraft, read_draft, spare_row};
pub use numbers::number;
pub use parts::split_first;
pub use reading::read;
pub use rowlines::Row;
