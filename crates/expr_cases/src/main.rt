//! Expressions read from tokens, case by case: a program for tables of cases.
//!
//! A line is the word of a call, for `parse` and `end` a place in the tokens, and the tokens with blanks between, parted by tabs. The tokens are of file 7, one a
//! line. The answer has two words at most:
//!
//! - `parse`, by `parse_expr`: the shape of the tree and the place behind it, or the code of a fault and its place, as 1,000 times the file and the line;
//! - `end`, by `parse_expr` for long lines: the place behind the tree alone, or the fault;
//! - `expr`, by `read_expr`: how many tokens are left behind the tree;
//! - `list`, by `read_list`: how many expressions the list has, and how many tokens are left behind it;
//! - `select`, by `read_select`: how many tokens are left behind the select.
//!
//! The last three answer `none` where the call refuses. In a shape, `< >` are the brackets of the text, and `( )` stand around each operator with its operands.
#![tactic(auto)]

mod answers;
mod shapes;
mod words;

use answers::Expressions;
use case_lines::answer_lines;
use std::io;

fn main(rt: HostRuntime) -> io::Result<()> {
    let mut writer = io::writer(&rt);
    answer_lines(rt.alloc(), rt.reader(), &mut Expressions, &mut writer)
}
