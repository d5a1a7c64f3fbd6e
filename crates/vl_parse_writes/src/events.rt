ghost use Rattle.std.specs.Prelude.{◌≡◌};
ghost use Rattle.vl_rules.specs.Events as events;
ghost use Rattle.vl_rules.specs.Form.{reads};
ghost use Rattle.vl_rules.specs.Modules.{read_to};
ghost use Rattle.vl_expr.specs.Gives.{Gives};

use std::alloc::Global;
use vl_expr::{Read, ReadError, expect};
use vl_parse_parts::{Part, Reader, is_next, maybe, one_and_more};
use vl_tree::{Edge, EdgeWord, Event, Token, Word, next_word, same_word};

/// `posedge` or `negedge`.
#[derive(Clone, Copy)]
struct EdgeWords {
    pub reader: Reader,
}

impl<'f> Part<'f> for EdgeWords {
    ghost use Rattle.std.specs.Prelude.{◌≡◌};
    ghost use Rattle.vl_rules.specs.Events as events;
    ghost use Rattle.vl_rules.specs.Form.{reads, starts};
    ghost use Rattle.vl_rules.specs.Modules.{read_to};
    ghost use Rattle.vl_expr.specs.Gives.{Gives};

    type Tree = EdgeWord;

    ghost ready = { λ s. Unit {0} };

    ghost begin = { λ s. starts events.edge_word };

    ghost parser = { λ s. reads (read_to s.reader.depth) events.edge_word };

    #[tactic(auto, unfolding(vl_rules::specs::Events::edge_word))]
    fn starts_with(&self, word: Word) -> bool
        ensures { result ≡ starts events.edge_word word }
    {
        same_word(word, Word::Posedge) || same_word(word, Word::Negedge)
    }

    #[tactic(auto, unfolding(vl_rules::specs::Events::edge_word))]
    fn read<'t>(&self, tokens: &'t [Token<'f>]) -> Read<'t, 'f, Self::Tree>
        ensures { Gives (λ x. (x.0, x.1.now)) result (reads (read_to self.now.reader.depth) events.edge_word tokens.now) }
    {
        if is_next(tokens, Word::Posedge) {
            let (_, rest) = expect(tokens, Word::Posedge)?;
            Ok((EdgeWord::Posedge, rest))
        } else {
            let (_, rest) = expect(tokens, Word::Negedge)?;
            Ok((EdgeWord::Negedge, rest))
        }
    }
}

/// Events of a list.
#[derive(Clone, Copy)]
struct Edges {
    pub reader: Reader,
}

impl<'f> Part<'f> for Edges {
    ghost use Rattle.std.specs.Prelude.{◌≡◌};
    ghost use Rattle.vl_rules.specs.Events as events;
    ghost use Rattle.vl_rules.specs.Form.{reads, starts};
    ghost use Rattle.vl_rules.specs.Modules.{read_to};
    ghost use Rattle.vl_expr.specs.Gives.{Gives};

    type Tree = Edge<'f>;

    ghost ready = { λ s. Unit {0} };

    ghost begin = { λ s. starts events.edge };

    ghost parser = { λ s. reads (read_to s.reader.depth) events.edge };

    #[tactic(auto, unfolding(vl_rules::specs::Events::edge, vl_rules::specs::Events::edge_word))]
    fn starts_with(&self, word: Word) -> bool
        ensures { result ≡ starts events.edge word }
    {
        same_word(word, Word::Posedge)
            || same_word(word, Word::Negedge)
            || same_word(word, Word::Name)
    }

    #[tactic(auto, unfolding(vl_rules::specs::Events::edge))]
    fn read<'t>(&self, tokens: &'t [Token<'f>]) -> Read<'t, 'f, Self::Tree>
        ensures { Gives (λ x. (x.0, x.1.now)) result (reads (read_to self.now.reader.depth) events.edge tokens.now) }
    {
        let words = EdgeWords {
            reader: self.reader,
        };
        let (edge, rest) = maybe(&words, tokens)?;
        let (name, rest) = expect(rest, Word::Name)?;
        let (selects, rest) = self.reader.selects(rest)?;
        let found = Edge {
            edge,
            name,
            selects,
        };
        Ok((found, rest))
    }
}

/// Events behind `or` or a comma.
#[derive(Clone, Copy)]
struct OtherEdges {
    pub reader: Reader,
}

impl<'f> Part<'f> for OtherEdges {
    ghost use Rattle.std.specs.Prelude.{◌≡◌};
    ghost use Rattle.vl_rules.specs.Events as events;
    ghost use Rattle.vl_rules.specs.Form.{reads, starts};
    ghost use Rattle.vl_rules.specs.Modules.{read_to};
    ghost use Rattle.vl_expr.specs.Gives.{Gives};

    type Tree = Edge<'f>;

    ghost ready = { λ s. Unit {0} };

    ghost begin = { λ s. starts events.next_edge };

    ghost parser = { λ s. reads (read_to s.reader.depth) events.next_edge };

    #[tactic(auto, unfolding(vl_rules::specs::Events::next_edge, vl_rules::specs::Events::joint))]
    fn starts_with(&self, word: Word) -> bool
        ensures { result ≡ starts events.next_edge word }
    {
        same_word(word, Word::Or) || same_word(word, Word::Comma)
    }

    #[tactic(auto, unfolding(vl_rules::specs::Events::next_edge))]
    fn read<'t>(&self, tokens: &'t [Token<'f>]) -> Read<'t, 'f, Self::Tree>
        ensures { Gives (λ x. (x.0, x.1.now)) result (reads (read_to self.now.reader.depth) events.next_edge tokens.now) }
    {
        let (_, rest) = joint(&self.reader, tokens)?;
        let edges = Edges {
            reader: self.reader,
        };
        let (edge, rest) = edges.read(rest)?;
        Ok((edge, rest))
    }
}

#[tactic(auto, unfolding(vl_rules::specs::Events::joint))]
fn joint<'t, 'f>(reader: &Reader, tokens: &'t [Token<'f>]) -> Read<'t, 'f, Token<'f>>
    ensures { Gives (λ x. (x.0, x.1.now)) result (reads (read_to reader.now.depth) events.joint tokens.now) }
{
    if is_next(tokens, Word::Or) {
        expect(tokens, Word::Or)
    } else {
        expect(tokens, Word::Comma)
    }
}

#[tactic(auto, unfolding(vl_rules::specs::Events::listed_events, vl_rules::specs::Events::edges))]
fn listed_events<'t, 'f>(reader: &Reader, tokens: &'t [Token<'f>]) -> Read<'t, 'f, Event<'f>>
    ensures { Gives (λ x. (x.0, x.1.now)) result (reads (read_to reader.now.depth) events.listed_events tokens.now) }
{
    if is_next(tokens, Word::Star) {
        let (_, rest) = expect(tokens, Word::Star)?;
        Ok((Event::AnyInBrackets, rest))
    } else {
        let first = Edges { reader: *reader };
        let others = OtherEdges { reader: *reader };
        let (edges, rest) = one_and_more(reader.alloc, &first, &others, tokens)?;
        Ok((Event::Edges(edges), rest))
    }
}

/// What a process waits for, behind `@` (A.6.5).
#[tactic(auto, unfolding(vl_rules::specs::Events::events))]
pub fn event_control<'t, 'f>(reader: &Reader, tokens: &'t [Token<'f>]) -> Read<'t, 'f, Event<'f>>
    ensures { Gives (λ x. (x.0, x.1.now)) result (reads (read_to reader.now.depth) events.events tokens.now) }
{
    if is_next(tokens, Word::Star) {
        let (_, rest) = expect(tokens, Word::Star)?;
        Ok((Event::Any, rest))
    } else {
        let (_, rest) = expect(tokens, Word::LeftParen)?;
        let (event, rest) = listed_events(reader, rest)?;
        let (_, rest) = expect(rest, Word::RightParen)?;
        Ok((event, rest))
    }
}
