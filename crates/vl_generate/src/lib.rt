//! What is evaluated before a design stands: ranges and types of declarations, overrides of parameters, turns of generate loops, and which
//! blocks of generate constructs are taken (IEEE 1364-2005, 4.3, 4.10, 12.2 and 12.4).
#![tactic(auto, using(crate::proofs::Rules::rules))]

mod binding;
mod branches;
mod functions;
mod laws;
mod loops;
mod shade;
mod values;
mod vectors;

pub use binding::{Override, OverrideList, or_value, overrides};
pub use branches::{Taken, label_of, of_case, of_if};
pub use functions::function_entry;
pub use laws::{first_arms_count, long_loops_are_refused, turns_follow_the_header};
pub use loops::{Turns, turns_of};
pub use shade::{Bound, Known, Shaded};
pub use values::alone;
pub use vectors::{
    Form, Vector, constant_entry, form_of, integer_bits, one_bit, signal_entry, typed, vector_of,
};
