//! Tests of the crates of names and items, through their public calls: each of these crates is proved once, without them.
#![tactic(auto)]

#[cfg(test)]
mod items;
#[cfg(test)]
mod names;
#[cfg(test)]
mod signals;
