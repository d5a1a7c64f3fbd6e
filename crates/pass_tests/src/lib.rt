//! Tests of the passes over items through their public calls.
#![tactic(auto)]

#[cfg(test)]
mod passes;
