//! The grammar reads what the tokens say, and not where their texts lie: laws about sources of tokens that say the same.
//! Each is the contract of a function with an empty body.
#![tactic(auto)]

ghost use Rattle.std.specs.Prelude.{◌≡◌, ◌⊎◌, List, [], map};
ghost use Rattle.vl_tree.specs.declared.tokens.Token.{Token};
ghost use Rattle.vl_tree.specs.declared.modules.Module.{Module};
ghost use Rattle.vl_lex.specs.Lexed.{Seen, view};
ghost use Rattle.vl_grammar.specs.Read.{Tokens};
ghost use Rattle.vl_rules.specs.Files.{cut, Breaks};
ghost use Rattle.vl_rules.specs.Modules.{source, Stands};
ghost use Rattle.grammar_views.specs.Views.{IsSpelled, BreaksAt};

/// Of two lists of tokens that say the same, both are sources or neither is.
pub fn is_spelled_by_views()
    ensures { (ts us : Tokens) (ms : List Module) → map view ts ≡ map view us → Stands source ms ts [] → (ns : List Module) × Stands source ns us [] }
{}

/// Of two lists of tokens that say the same, both break at the same place or neither breaks.
pub fn breaks_by_views()
    ensures { (ts us : Tokens) (t : Token) → map view ts ≡ map view us → Breaks (cut ts) t → (u : Token) × (view u ≡ view t) × Breaks (cut us) u }
{}

/// Tokens are spelled by a source, or they break somewhere.
pub fn is_spelled_or_breaks()
    ensures { (tokens : List Seen) → IsSpelled tokens ⊎ ((first : Seen) × BreaksAt tokens first) }
{}

/// Tokens that a source spells do not break.
pub fn is_spelled_without_breaks()
    ensures { (tokens : List Seen) (first : Seen) → IsSpelled tokens → BreaksAt tokens first → ⊥ }
{}

/// Tokens break at one place at most.
pub fn breaks_in_one_place()
    ensures { (tokens : List Seen) (s t : Seen) → BreaksAt tokens s → BreaksAt tokens t → s ≡ t }
{}
