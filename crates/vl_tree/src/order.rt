ghost use Rattle.std.specs.Prelude.{◌≡◌};
ghost use Rattle.vl_tree.specs.Order as spec;

use crate::faults::Code;

impl Code {
    /// The place of the code in the order of codes: those of sources, of tables and texts, and the limits, each by its number.
    pub fn rank(&self) -> u8
        ensures { result ≡ spec.rank self.now }
    {
        *self as u8
    }
}

/// The lower of two codes, where there are any; the first of two that are the same.
pub fn lower(first: Option<Code>, second: Option<Code>) -> Option<Code>
    ensures { result ≡ spec.lower first second }
{
    match first {
        None => second,
        Some(code) => match second {
            None => first,
            Some(other) => {
                if other.rank() < code.rank() {
                    second
                } else {
                    first
                }
            }
        },
    }
}

/// The code, where the test is true.
pub fn where_true(test: bool, code: Code) -> Option<Code>
    ensures { result ≡ spec.where_true test code }
{
    if test { Some(code) } else { None }
}

/// The lowest of some codes, of which each may be missing. Linear in the list.
#[tactic(auto, using(crate::proofs::OrderLaws::lower_none))]
pub fn lowest(codes: &[Option<Code>]) -> Option<Code>
    ensures { result ≡ spec.lowest (spec.those_of codes.now) }
{
    let mut least = None;
    for code in codes {
        least = lower(least, *code);
    }
    least
}
