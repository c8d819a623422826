//! What is proved of terms and their limits. The functions do nothing: a law is a contract.
ghost use Rattle.std.specs.Prelude.{◌≡◌};
ghost use Rattle.std.specs.Cmp.{IsTotalOrder};
ghost use Rattle.circ_term.specs.Limits.{node_limit, depth_limit, argument_limit};
ghost use Rattle.circ_term.specs.Order.{tree_cmp, EqualIsSame};
ghost use Rattle.circ_term.specs.declared.TheConstants.{MOST_NODES, MOST_DEPTH, MOST_ARGS};

/// The order of terms is total, and a term is equal to itself alone.
pub fn terms_are_ordered()
    ensures total { IsTotalOrder tree_cmp }
    ensures same { EqualIsSame }
{}

/// The limits of the code are those that the definitions state.
pub fn limits_are_stated()
    ensures nodes { MOST_NODES ≡ node_limit }
    ensures depth { MOST_DEPTH ≡ depth_limit }
    ensures args { MOST_ARGS ≡ argument_limit }
{}
