ghost use Rattle.std.specs.Prelude.{◌≡◌};
ghost use Rattle.vl_rules.specs.Form as spec;
ghost use Rattle.vl_rules.specs.Instances as instances;
ghost use Rattle.vl_rules.specs.Shapes as shape;
ghost use Rattle.std.specs.List.{list_all};
ghost use Rattle.vl_rules.specs.Form.{starts};
ghost use Rattle.vl_rules.specs.Form.{reads};
ghost use Rattle.vl_rules.specs.Modules.{read_to};
ghost use Rattle.vl_expr.specs.Gives.{Gives};

use bits_core::Items;
use std::alloc::Global;
use vl_expr::{Read, ReadError, expect};
use vl_parse_parts::{Names, Part, Reader, Values, begins_value, is_next, list, maybe};
use vl_tree::{
    Binds, Expr, Gate, GateInstance, GateItem, Instance, InstanceItem, NamedBind, Token, Word,
    same_word,
};

/// Values by name.
#[derive(Clone, Copy)]
struct NamedBinds {
    pub reader: Reader,
}

impl<'f> Part<'f> for NamedBinds {
    ghost use Rattle.std.specs.Prelude.{◌≡◌};
    ghost use Rattle.vl_rules.specs.Instances as instances;
    ghost use Rattle.vl_rules.specs.Form.{reads, starts};
    ghost use Rattle.vl_rules.specs.Modules.{read_to};
    ghost use Rattle.vl_expr.specs.Gives.{Gives};

    type Tree = NamedBind<'f>;

    ghost ready = { λ s. Unit {0} };

    ghost begin = { λ s. starts instances.named_bind };

    ghost parser = { λ s. reads (read_to s.reader.depth) instances.named_bind };

    #[tactic(auto, unfolding(vl_rules::specs::Instances::named_bind))]
    fn starts_with(&self, word: Word) -> bool
        ensures { result ≡ starts instances.named_bind word }
    {
        same_word(word, Word::Dot)
    }

    #[tactic(auto, unfolding(vl_rules::specs::Instances::named_bind))]
    fn read<'t>(&self, tokens: &'t [Token<'f>]) -> Read<'t, 'f, Self::Tree>
        ensures { Gives (λ x. (x.0, x.1.now)) result (reads (read_to self.now.reader.depth) instances.named_bind tokens.now) }
    {
        let (_, rest) = expect(tokens, Word::Dot)?;
        let (name, rest) = expect(rest, Word::Name)?;
        let (_, rest) = expect(rest, Word::LeftParen)?;
        let values = Values {
            reader: self.reader,
        };
        let (value, rest) = maybe(&values, rest)?;
        let (_, rest) = expect(rest, Word::RightParen)?;
        Ok((NamedBind { name, value }, rest))
    }
}

/// Values by place, which may be absent.
#[derive(Clone, Copy)]
struct OrderedBinds {
    pub reader: Reader,
}

impl<'f> Part<'f> for OrderedBinds {
    ghost use Rattle.std.specs.Prelude.{◌≡◌};
    ghost use Rattle.vl_rules.specs.Shapes as shape;
    ghost use Rattle.vl_rules.specs.Form as spec;
    ghost use Rattle.vl_rules.specs.Form.{reads, starts};
    ghost use Rattle.vl_rules.specs.Modules.{read_to};
    ghost use Rattle.vl_expr.specs.Gives.{Gives};

    type Tree = Option<Expr<'f>>;

    ghost ready = { λ s. Unit {0} };

    ghost begin = { λ s. starts (shape.maybe spec.value) };

    ghost parser = { λ s. reads (read_to s.reader.depth) (shape.maybe spec.value) };

    fn starts_with(&self, word: Word) -> bool
        ensures { result ≡ starts (shape.maybe spec.value) word }
    {
        begins_value(word)
    }

    fn read<'t>(&self, tokens: &'t [Token<'f>]) -> Read<'t, 'f, Self::Tree>
        ensures { Gives (λ x. (x.0, x.1.now)) result (reads (read_to self.now.reader.depth) (shape.maybe spec.value) tokens.now) }
    {
        let values = Values {
            reader: self.reader,
        };
        maybe(&values, tokens)
    }
}

/// Instances of one module.
#[derive(Clone, Copy)]
struct Instances {
    pub reader: Reader,
}

impl<'f> Part<'f> for Instances {
    ghost use Rattle.std.specs.Prelude.{◌≡◌};
    ghost use Rattle.vl_rules.specs.Instances as instances;
    ghost use Rattle.vl_rules.specs.Form.{reads, starts};
    ghost use Rattle.vl_rules.specs.Modules.{read_to};
    ghost use Rattle.vl_expr.specs.Gives.{Gives};

    type Tree = Instance<'f>;

    ghost ready = { λ s. Unit {0} };

    ghost begin = { λ s. starts instances.instance };

    ghost parser = { λ s. reads (read_to s.reader.depth) instances.instance };

    #[tactic(auto, unfolding(vl_rules::specs::Instances::instance))]
    fn starts_with(&self, word: Word) -> bool
        ensures { result ≡ starts instances.instance word }
    {
        same_word(word, Word::Name)
    }

    #[tactic(auto, unfolding(vl_rules::specs::Instances::instance))]
    fn read<'t>(&self, tokens: &'t [Token<'f>]) -> Read<'t, 'f, Self::Tree>
        ensures { Gives (λ x. (x.0, x.1.now)) result (reads (read_to self.now.reader.depth) instances.instance tokens.now) }
    {
        let (name, rest) = expect(tokens, Word::Name)?;
        let (_, rest) = expect(rest, Word::LeftParen)?;
        let (found, rest) = values(&self.reader, rest)?;
        let (_, rest) = expect(rest, Word::RightParen)?;
        let binds = present(found);
        Ok((Instance { name, binds }, rest))
    }
}

/// Gates of one kind.
#[derive(Clone, Copy)]
struct GateInstances {
    pub reader: Reader,
}

impl<'f> Part<'f> for GateInstances {
    ghost use Rattle.std.specs.Prelude.{◌≡◌};
    ghost use Rattle.vl_rules.specs.Instances as instances;
    ghost use Rattle.vl_rules.specs.Form.{reads, starts};
    ghost use Rattle.vl_rules.specs.Modules.{read_to};
    ghost use Rattle.vl_expr.specs.Gives.{Gives};

    type Tree = GateInstance<'f>;

    ghost ready = { λ s. Unit {0} };

    ghost begin = { λ s. starts instances.gate_instance };

    ghost parser = { λ s. reads (read_to s.reader.depth) instances.gate_instance };

    #[tactic(auto, unfolding(vl_rules::specs::Instances::gate_instance))]
    fn starts_with(&self, word: Word) -> bool
        ensures { result ≡ starts instances.gate_instance word }
    {
        same_word(word, Word::Name) || same_word(word, Word::LeftParen)
    }

    #[tactic(auto, unfolding(vl_rules::specs::Instances::gate_instance))]
    fn read<'t>(&self, tokens: &'t [Token<'f>]) -> Read<'t, 'f, Self::Tree>
        ensures { Gives (λ x. (x.0, x.1.now)) result (reads (read_to self.now.reader.depth) instances.gate_instance tokens.now) }
    {
        let names = Names {
            reader: self.reader,
        };
        let (name, rest) = maybe(&names, tokens)?;
        let (_, rest) = expect(rest, Word::LeftParen)?;
        let (output, rest) = self.reader.left_side(rest)?;
        let (_, rest) = expect(rest, Word::Comma)?;
        let (inputs, rest) = gate_inputs(&self.reader, rest)?;
        let (_, rest) = expect(rest, Word::RightParen)?;
        let gate = GateInstance {
            name,
            output,
            inputs,
        };
        Ok((gate, rest))
    }
}

fn gate_inputs<'t, 'f>(reader: &Reader, tokens: &'t [Token<'f>]) -> Read<'t, 'f, Items<Expr<'f>>>
    ensures { Gives (λ x. (x.0, x.1.now)) result (reads (read_to reader.now.depth) (shape.list spec.value) tokens.now) }
{
    list(reader.alloc, &Values { reader: *reader }, tokens)
}

/// Values by place or by name.
#[tactic(auto, unfolding(vl_rules::specs::Instances::values, vl_rules::specs::Instances::named_bind))]
fn values<'t, 'f>(reader: &Reader, tokens: &'t [Token<'f>]) -> Read<'t, 'f, Binds<'f>>
    ensures { Gives (λ x. (x.0, x.1.now)) result (reads (read_to reader.now.depth) instances.values tokens.now) }
{
    if is_next(tokens, Word::Dot) {
        let (found, rest) = list(reader.alloc, &NamedBinds { reader: *reader }, tokens)?;
        Ok((Binds::Named(found), rest))
    } else {
        let (found, rest) = list(reader.alloc, &OrderedBinds { reader: *reader }, tokens)?;
        Ok((Binds::Ordered(found), rest))
    }
}

/// Values are absent where nothing stands.
fn present<'f>(binds: Binds<'f>) -> Option<Binds<'f>>
    ensures { result ≡ instances.present binds.entry }
{
    if is_nothing(&binds) {
        None
    } else {
        Some(binds)
    }
}

/// Whether these are values by place, of which there is one, and that is absent.
fn is_nothing(binds: &Binds<'_>) -> bool
    ensures { result ≡ instances.is_nothing binds.now }
{
    match binds {
        Binds::Named(_) => false,
        Binds::Ordered(values) => match values.as_slice() {
            [None] => true,
            _ => false,
        },
    }
}

#[tactic(auto, unfolding(vl_rules::specs::Instances::overrides))]
fn overrides<'t, 'f>(reader: &Reader, tokens: &'t [Token<'f>]) -> Read<'t, 'f, Option<Binds<'f>>>
    ensures { Gives (λ x. (x.0, x.1.now)) result (reads (read_to reader.now.depth) instances.overrides tokens.now) }
{
    if is_next(tokens, Word::Hash) {
        let (_, rest) = expect(tokens, Word::Hash)?;
        let (_, rest) = expect(rest, Word::LeftParen)?;
        let (found, rest) = values(reader, rest)?;
        let (_, rest) = expect(rest, Word::RightParen)?;
        Ok((Some(found), rest))
    } else {
        Ok((None, tokens))
    }
}

/// Instances of a module (IEEE 1364-2005, A.4.1).
#[tactic(auto, unfolding(vl_rules::specs::Instances::instances_item))]
pub fn instances_item<'t, 'f>(
    reader: &Reader,
    tokens: &'t [Token<'f>],
) -> Read<'t, 'f, InstanceItem<'f>>
    ensures { Gives (λ x. (x.0, x.1.now)) result (reads (read_to reader.now.depth) instances.instances_item tokens.now) }
{
    let (module, rest) = expect(tokens, Word::Name)?;
    let (overrides, rest) = overrides(reader, rest)?;
    let (instances, rest) = list(reader.alloc, &Instances { reader: *reader }, rest)?;
    let (_, rest) = expect(rest, Word::Semicolon)?;
    let item = InstanceItem {
        module,
        overrides,
        instances,
    };
    Ok((item, rest))
}

#[tactic(auto, unfolding(vl_rules::specs::Instances::gate_word))]
fn gate_word<'t, 'f>(reader: &Reader, tokens: &'t [Token<'f>]) -> Read<'t, 'f, Gate>
    ensures { Gives (λ x. (x.0, x.1.now)) result (reads (read_to reader.now.depth) instances.gate_word tokens.now) }
{
    if is_next(tokens, Word::And) {
        let (_, rest) = expect(tokens, Word::And)?;
        Ok((Gate::And, rest))
    } else if is_next(tokens, Word::Nand) {
        let (_, rest) = expect(tokens, Word::Nand)?;
        Ok((Gate::Nand, rest))
    } else if is_next(tokens, Word::Or) {
        let (_, rest) = expect(tokens, Word::Or)?;
        Ok((Gate::Or, rest))
    } else if is_next(tokens, Word::Nor) {
        let (_, rest) = expect(tokens, Word::Nor)?;
        Ok((Gate::Nor, rest))
    } else if is_next(tokens, Word::Xor) {
        let (_, rest) = expect(tokens, Word::Xor)?;
        Ok((Gate::Xor, rest))
    } else if is_next(tokens, Word::Xnor) {
        let (_, rest) = expect(tokens, Word::Xnor)?;
        Ok((Gate::Xnor, rest))
    } else if is_next(tokens, Word::Buf) {
        let (_, rest) = expect(tokens, Word::Buf)?;
        Ok((Gate::Buf, rest))
    } else {
        let (_, rest) = expect(tokens, Word::Not)?;
        Ok((Gate::Not, rest))
    }
}

#[tactic(auto, unfolding(vl_rules::specs::Instances::any_gates))]
fn any_gates<'t, 'f>(reader: &Reader, tokens: &'t [Token<'f>]) -> Read<'t, 'f, GateItem<'f>>
    ensures { Gives (λ x. (x.0, x.1.now)) result (reads (read_to reader.now.depth) instances.any_gates tokens.now) }
{
    let (gate, rest) = gate_word(reader, tokens)?;
    let (gates, rest) = list(reader.alloc, &GateInstances { reader: *reader }, rest)?;
    let (_, rest) = expect(rest, Word::Semicolon)?;
    Ok((GateItem { gate, gates }, rest))
}

fn has_one_input(gate: &GateInstance<'_>) -> bool
    ensures { result ≡ instances.has_one_input gate.now }
{
    gate.inputs.len() == 1
}

fn each_has_one_input(gates: &[GateInstance<'_>]) -> bool
    ensures { result ≡ list_all instances.has_one_input gates.now }
{
    gates.iter().all(|gate| has_one_input(gate))
}

/// Whether each `buf` and `not` has one input.
fn right_inputs(item: &GateItem<'_>) -> bool
    ensures { result ≡ instances.right_inputs item.now }
{
    match item.gate {
        Gate::Buf | Gate::Not => each_has_one_input(item.gates.as_slice()),
        _ => true,
    }
}

/// Gates (A.3.1).
#[tactic(auto, unfolding(vl_rules::specs::Instances::gates_item))]
pub fn gates_item<'t, 'f>(reader: &Reader, tokens: &'t [Token<'f>]) -> Read<'t, 'f, GateItem<'f>>
    ensures { Gives (λ x. (x.0, x.1.now)) result (reads (read_to reader.now.depth) instances.gates_item tokens.now) }
{
    let (item, rest) = any_gates(reader, tokens)?;
    if right_inputs(&item) {
        Ok((item, rest))
    } else {
        Err(ReadError::Refused)
    }
}

/// Whether gates begin with this word.
#[tactic(auto, unfolding(vl_rules::specs::Instances::gates_item, vl_rules::specs::Instances::any_gates, vl_rules::specs::Instances::gate_word))]
pub fn begins_gates(word: Word) -> bool
    ensures { result ≡ starts instances.gates_item word }
{
    same_word(word, Word::And)
        || (same_word(word, Word::Nand)
            || (same_word(word, Word::Or)
                || (same_word(word, Word::Nor)
                    || (same_word(word, Word::Xor)
                        || (same_word(word, Word::Xnor)
                            || (same_word(word, Word::Buf) || (same_word(word, Word::Not))))))))
}
