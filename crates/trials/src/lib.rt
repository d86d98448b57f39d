// Examples of what the crates do, each proved and then run. They stand in a crate of their own, because a crate with
// tests is proved twice.

#![tactic(auto)]

#[cfg(test)]
mod bearings;
#[cfg(test)]
mod bridges;
#[cfg(test)]
mod jobs;
#[cfg(test)]
mod pages;
#[cfg(test)]
mod rules;
#[cfg(test)]
mod sheets;
