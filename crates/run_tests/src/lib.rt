//! What the top call answers over small shelves and sinks in memory.
#![tactic(auto)]

#[cfg(test)]
mod tests;
