//! The grammar of sources as forms, what a form spells, how it is read, and laws about both.
#![tactic(auto)]

ghost use Rattle.std.specs.Prelude.{ℕ, ◌≤◌, ◌≡◌, List, [], length, Some, None, false};
ghost use Rattle.vl_tree.specs.Words.{next, same_word};
ghost use Rattle.vl_tree.specs.declared.words.Word.TheVariants as word;
ghost use Rattle.vl_tree.specs.declared.tokens.Token.{Token};
ghost use Rattle.vl_tree.specs.declared.expressions.Expr.{Expr};
ghost use Rattle.vl_tree.specs.declared.statements.Stmt.{Stmt};
ghost use Rattle.vl_tree.specs.declared.statements.Stmt.TheVariants as statement;
ghost use Rattle.vl_grammar.specs.Read.{Tokens};
ghost use Rattle.vl_tree.specs.declared.modules.Module.{Module};
ghost use Rattle.vl_rules.specs.Form.{Rule, Tree, reads, rule_joins};
ghost use Rattle.vl_rules.specs.Statements.{choice};
ghost use Rattle.vl_rules.specs.Files.{cut, Spelled, Breaks};
ghost use Rattle.vl_rules.specs.Modules.{module_form, source, body, spelled_to, read_to, Stands};

/// What is read as a module is spelled by it.
#[tactic(auto, using(crate::proofs::Modules::module_spelled))]
pub fn reads_modules_spelled()
    ensures { (f : ℕ) (m : Module) (ts rest : Tokens) → reads (read_to f) module_form ts ≡ Some (m, rest) → Stands module_form m ts rest }
{}

/// What a module spells is read again as that module, whatever comes behind it.
#[tactic(auto, using(crate::proofs::Modules::module_again))]
pub fn reads_modules_again()
    ensures { (f : ℕ) (m : Module) (ts rest : Tokens) → length ts ≤ f → Stands module_form m ts rest → reads (read_to f) module_form ts ≡ Some (m, rest) }
{}

/// At most one module spells a list of tokens.
#[tactic(auto, using(crate::proofs::Modules::module_one))]
pub fn has_one_module()
    ensures { (m n : Module) (ts : Tokens) → Stands module_form m ts [] → Stands module_form n ts [] → m ≡ n }
{}

/// What is read by a rule that leads back to itself, as a statement, is spelled by it.
#[tactic(auto, using(crate::proofs::Modules::rule_spelled))]
pub fn reads_rules_spelled()
    ensures { (f : ℕ) (r : Rule) (x : Tree r) (ts rest : Tokens) → reads (read_to f) (body r) ts ≡ Some (x, rest) → Stands (body r) x ts rest }
{}

/// What such a rule spells is read again, where it does not go on with the next word.
#[tactic(auto, using(crate::proofs::Modules::rule_again))]
pub fn reads_rules_again()
    ensures { (f : ℕ) (r : Rule) (x : Tree r) (ts rest : Tokens) → length ts ≤ f → Stands (body r) x ts rest → rule_joins r (next rest) ≡ false → reads (read_to f) (body r) ts ≡ Some (x, rest) }
{}

/// The modules of a source spell the parts of its tokens, cut after each `endmodule`.
#[tactic(auto, using(crate::proofs::Parts::in_parts))]
pub fn spells_its_parts()
    ensures { (ms : List Module) (ts : Tokens) → Stands source ms ts [] → Spelled ms (cut ts) }
{}

/// Modules that spell the parts of a list of tokens are a source of these tokens.
#[tactic(auto, using(crate::proofs::Parts::from_parts))]
pub fn is_spelled_by_parts()
    ensures { (ms : List Module) (ts : Tokens) → Spelled ms (cut ts) → Stands source ms ts [] }
{}

/// Where no module spells a part, no source spells the tokens.
#[tactic(auto, using(crate::proofs::Parts::broken))]
pub fn breaks_the_source()
    ensures { (ts : Tokens) (t : Token) → Breaks (cut ts) t → (ms : List Module) → Stands source ms ts [] → ⊥ }
{}

/// At most one source spells a list of tokens.
#[tactic(auto, using(crate::proofs::Modules::source_one))]
pub fn has_one_source()
    ensures { (ms ns : List Module) (ts : Tokens) → Stands source ms ts [] → Stands source ns ts [] → ms ≡ ns }
{}

/// No `else` stands behind an `if` that has none: it goes to the nearest `if` (IEEE 1364-2005, section 9.4).
#[tactic(auto, using(crate::proofs::Nearest::takes_no_else))]
pub fn leaves_no_else()
    ensures { (test : Expr) (yes : Stmt) (ts rest : Tokens) → Stands choice (statement.If test yes None) ts rest → same_word (next rest) word.Else ≡ false }
{}
