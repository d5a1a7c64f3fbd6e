//! Tests of the logic crates through their public calls: that the calls succeed where there is memory, and tables of texts.
#![tactic(auto)]

#[cfg(test)]
mod encoding;
#[cfg(test)]
mod logs;
#[cfg(test)]
mod verdicts;
