//! Tests of the crates of values, of the parts of trees, of circuits and of frames, through their public calls: each of these crates is proved once, without them.
#![tactic(auto)]

#[cfg(test)]
mod circuits;
#[cfg(test)]
mod frames;
#[cfg(test)]
mod parts;
#[cfg(test)]
mod values;
