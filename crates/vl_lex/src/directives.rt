ghost use Rattle.std.specs.Prelude.{◌≡◌};
ghost use Rattle.std.specs.Str.{bytes_eq};
ghost use Rattle.vl_lex.specs.Macros as spec;

use vl_tree::TokenKind;

/// What a directive does, by its name.
#[derive(Clone, Copy, Debug)]
pub enum Directive {
    Define,
    Undef,
    IfDef,
    IfNdef,
    ElsIf,
    Else,
    EndIf,
    Include,
    DefaultNettype,
    ResetAll,
    /// The rest of the line is dropped.
    DropsLine,
    Nothing,
    UnconnectedDrive,
    /// Any other name: the use of a macro.
    Macro,
}

fn is_name(text: &[u8], word: &[u8]) -> bool
    ensures { result ≡ bytes_eq text.now word.now }
{
    text == word
}

/// A backquote with a name.
pub fn is_directive(kind: TokenKind) -> bool
    ensures { result ≡ spec.is_directive kind }
{
    match kind {
        TokenKind::Directive => true,
        _ => false,
    }
}

/// The directive of a name.
#[tactic(auto, unfolding(crate::specs::Macros::directive_of, crate::specs::Macros::directives))]
pub fn directive_of(name: &[u8]) -> Directive
    ensures { result ≡ spec.directive_of name.now }
{
    if is_name(name, b"define") {
        Directive::Define
    } else if is_name(name, b"undef") {
        Directive::Undef
    } else if is_name(name, b"ifdef") {
        Directive::IfDef
    } else if is_name(name, b"ifndef") {
        Directive::IfNdef
    } else if is_name(name, b"elsif") {
        Directive::ElsIf
    } else if is_name(name, b"else") {
        Directive::Else
    } else if is_name(name, b"endif") {
        Directive::EndIf
    } else if is_name(name, b"include") {
        Directive::Include
    } else if is_name(name, b"default_nettype") {
        Directive::DefaultNettype
    } else if is_name(name, b"resetall") {
        Directive::ResetAll
    } else if is_name(name, b"timescale") {
        Directive::DropsLine
    } else if is_name(name, b"line") {
        Directive::DropsLine
    } else if is_name(name, b"pragma") {
        Directive::DropsLine
    } else if is_name(name, b"begin_keywords") {
        Directive::DropsLine
    } else if is_name(name, b"celldefine") {
        Directive::Nothing
    } else if is_name(name, b"endcelldefine") {
        Directive::Nothing
    } else if is_name(name, b"end_keywords") {
        Directive::Nothing
    } else if is_name(name, b"nounconnected_drive") {
        Directive::Nothing
    } else if is_name(name, b"unconnected_drive") {
        Directive::UnconnectedDrive
    } else {
        Directive::Macro
    }
}
