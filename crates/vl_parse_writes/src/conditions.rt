ghost use Rattle.std.specs.Prelude.{◌≡◌, true, false, IfOk, IfErr};
ghost use Rattle.vl_expr.specs.declared.errors.ReadError.TheVariants.{Refused};

use bits_core::Items;
use vl_expr::ReadError;

/// What has to be so of a list of trees.
pub trait Condition<'f> {
    type Tree: Drop;

    ghost use Rattle.std.specs.Prelude.{◌≡◌, Bool, List};

    ghost holds: { Self → List Self.Tree → Bool };

    fn holds_of(&self, trees: &[Self::Tree]) -> bool
        ensures { result ≡ holds self.now trees.now };
}

/// The trees, which are refused where the condition is not so of them.
pub fn kept_if<'f, C: Condition<'f>>(
    condition: &C,
    trees: Items<C::Tree>,
) -> Result<Items<C::Tree>, ReadError>
    ensures kept { IfOk result (λ kept. (kept ≡ trees) × (C.holds condition.now trees ≡ true)) }
    ensures refused { IfErr result (λ error. (error ≡ Refused) × (C.holds condition.now trees ≡ false)) }
{
    if condition.holds_of(trees.as_slice()) {
        Ok(trees)
    } else {
        Err(ReadError::Refused)
    }
}
