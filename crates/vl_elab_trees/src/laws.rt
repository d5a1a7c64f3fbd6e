ghost use Rattle.vl_elab_trees.specs.Formed.{ExpressionIsFormed};

/// An expression without a fault is formed, and as long as is asked for. Does nothing.
pub fn expression_is_formed()
    ensures { ExpressionIsFormed }
{}
