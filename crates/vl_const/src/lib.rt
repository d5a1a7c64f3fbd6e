//! The values of constant expressions (IEEE 1364-2005, 5.1 to 5.5), and of the counts, bounds and widths inside expressions.
#![tactic(auto, using(crate::proofs::Rules::rules))]

mod answers;
pub mod counting;
mod laws;
mod made;
mod numbers;
mod operations;
mod operators;
pub mod places;
mod scope;
pub mod streams;
mod table;
pub mod values;
mod whole;
pub mod worth;

pub use answers::{Answer, Joined, Place};
pub use counting::{Counted, Judged};
pub use laws::{
    faults_are_lowest, logarithms_are_least, numbers_are_divided, powers_are_of_numbers,
    values_are_long, values_are_used,
};
pub use numbers::{free_value, number_value};
pub use operators::Work;
pub use places::{Aim, Way};
pub use scope::{Constants, Names};
pub use table::{ConstEntry, ConstEntryList, ConstTable};
pub use whole::{const_value, const_value_in, counts, counts_in};
