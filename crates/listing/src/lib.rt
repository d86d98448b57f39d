// A list over places that the caller lends.

#![tactic(auto)]

mod places;

pub use places::Listing;
