//! What the definitions say by themselves.

ghost use Rattle.c_ops.specs.Operations.{HasOneTree};
ghost use Rattle.c_ops.specs.Trees.{HasItsTree, HasNoTree};

/// A list of operands and operators has at most one tree by the precedence table (C99, 6.5).
pub fn one_tree_at_most()
    ensures { HasOneTree }
{}

/// A list of operands and operators in which each assignment has one unary form on its left has a tree, and no other.
pub fn the_tree_of_a_list()
    ensures { HasItsTree }
{}

/// A list with an assignment to anything else has no tree.
pub fn no_tree_of_a_bad_target()
    ensures { HasNoTree }
{}
