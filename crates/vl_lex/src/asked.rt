ghost use Rattle.std.specs.Prelude.{◌≡◌, map};
ghost use Rattle.vl_lex.specs.Lexed.{placed};
ghost use Rattle.vl_lex.specs.Walk.{state_view, branches_view, name_is, find_file as found};
ghost use Rattle.vl_lex.specs.Sources.{files_of};
ghost use Rattle.vl_lex.specs.Asked as spec;

use crate::branches::Branches;
use crate::directives::{Directive, directive_of, is_directive};
use crate::expansion::directive_name;
use crate::lexer::Lined;
use crate::source::Source;
use crate::state::{State, find_file, inner_text, is_file_name, is_quoted};

fn is_include(directive: Directive) -> bool
    ensures { result ≡ spec.is_include directive }
{
    match directive {
        Directive::Include => true,
        _ => false,
    }
}

fn lacking<'f>(files: &[Source<'_>], name: &'f [u8]) -> Option<&'f [u8]>
    ensures { name_is result (spec.lacking (found 0 name.entry.now (files_of files.now)) name.entry.now) }
{
    match find_file(files, name) {
        None => Some(name),
        Some(_) => None,
    }
}

#[tactic(auto, unfolding(crate::specs::Asked::asked_name))]
fn asked_name<'f>(files: &[Source<'_>], state: &State<'f>, name: &'f [u8]) -> Option<&'f [u8]>
    ensures { name_is result (spec.asked_name (files_of files.now) (state_view state.now) name.entry.now) }
{
    if state.is_listed(name) || state.listed.len() < 1024 {
        lacking(files, name)
    } else {
        None
    }
}

#[tactic(auto, unfolding(crate::specs::Asked::asked_include))]
fn asked_include<'f>(
    levels: usize,
    files: &[Source<'_>],
    state: &State<'f>,
    token: &Lined<'f>,
    rest: &[Lined<'f>],
) -> Option<&'f [u8]>
    ensures { name_is result (spec.asked_include levels (files_of files.now) (state_view state.now) (placed token.now) (map placed rest.now)) }
{
    match rest {
        [] => None,
        [quoted, ..] => {
            let name = inner_text(quoted.token.text);
            if quoted.row == token.row && is_quoted(quoted.token.kind) && is_file_name(name) {
                if levels == 0 {
                    None
                } else {
                    asked_name(files, state, name)
                }
            } else {
                None
            }
        }
    }
}

/// The name of the file that a token asks for, if it does. Linear in the files.
#[tactic(auto, unfolding(crate::specs::Asked::asked))]
pub fn asked<'f>(
    levels: usize,
    files: &[Source<'_>],
    branches: &Branches,
    state: &State<'f>,
    token: &Lined<'f>,
    rest: &[Lined<'f>],
) -> Option<&'f [u8]>
    ensures { name_is result (spec.asked levels (files_of files.now) (branches_view branches.now) (state_view state.now) (placed token.now) (map placed rest.now)) }
{
    if is_directive(token.token.kind)
        && branches.active
        && is_include(directive_of(directive_name(&token.token)))
    {
        asked_include(levels, files, state, token, rest)
    } else {
        None
    }
}
