ghost use Rattle.std.specs.Prelude.{◌≡◌};
ghost use Rattle.vl_expr.specs.FreeNumbers.{is_free_number, is_some_free as is_some_free_in, FreeNumbersAreTokens, FreeNumbersOfLists, FreeNumbersOfSelects};

use vl_tree::{Token, Word, same_word, word_of};

fn is_free(token: &Token<'_>) -> bool
    ensures { result ≡ is_free_number token.now }
{
    same_word(word_of(token), Word::FreeNumber)
}

/// Whether some token is a number with free bits (IEEE 1364-2005, 3.5.1). By [`free_numbers_are_tokens`] an expression has one just where the tokens that it
/// spells have. Linear; takes no memory.
pub fn is_some_free(tokens: &[Token<'_>]) -> bool
    ensures { result ≡ is_some_free_in tokens.now }
{
    for token in tokens {
        if is_free(token) {
            return true;
        }
    }
    false
}

/// Of the tokens that an expression, a list of expressions or a select spells, some is a number with free bits just where one of its numbers has them. Does
/// nothing.
#[tactic(auto, using(crate::proofs::FreeNumbers::free_numbers_are_tokens, crate::proofs::FreeNumbers::free_numbers_of_lists, crate::proofs::FreeNumbers::free_numbers_of_selects))]
pub fn free_numbers_are_tokens()
    ensures expressions { FreeNumbersAreTokens }
    ensures lists { FreeNumbersOfLists }
    ensures selects { FreeNumbersOfSelects }
{}
