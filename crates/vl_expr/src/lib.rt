//! Reading expressions (IEEE 1364-2005, A.8.3 and A.8.4, with the levels of 5.1.2).
#![tactic(auto)]

mod errors;
mod free_numbers;
mod grammar;
mod parse;
mod tokens;

pub use errors::ReadError;
pub use free_numbers::{free_numbers_are_tokens, is_some_free};
pub use grammar::{read_list, read_select};
pub use parse::{parse_expr, read_expr};
pub use tokens::{Read, expect, next_role, peek, token};
