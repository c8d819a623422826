//! The numbers of variables that do not occur yet.
ghost use Rattle.std.specs.Prelude.{◌≡◌, ◌≤◌, ◌<◌, ◌^◌, map};
ghost use Rattle.circ_term.specs.Tree.{trees_of};
ghost use Rattle.circ_pairs.specs.Fresh.{above, all_above, fresh_after, above_pairs};
ghost use Rattle.circ_pairs.specs.Fresh.{fresh_in};
ghost use Rattle.circ_pairs.specs.Pairs.{plain_pair};

use crate::goals::Goal;
use crate::pairs::Pair;
use circ_term::{Kind, Term};

/// One above the greatest variable number of both terms, 0 where there is no variable. None of them
/// may have the number 4,294,967,295. Takes no memory.
pub fn fresh_after(a: &Term, b: &Term) -> u32
    requires { fresh_after a.now b.now < 2 ^ 32 }
    ensures { result ≡ fresh_after a.now b.now }
{
    above(a).max(above(b)) as u32
}

/// One above the greatest variable number of a goal, its conditions among it, 0 where there is no
/// variable. None of them may have the number 4,294,967,295. Takes no memory.
pub fn fresh_in(goal: &Goal) -> u32
    requires { fresh_in goal.now < 2 ^ 32 }
    ensures { result ≡ fresh_in goal.now }
{
    let sides = above(&goal.left).max(above(&goal.right));
    sides.max(above_pairs(goal.conds.as_slice())) as u32
}

/// One above the greatest variable number of the pairs' terms, 0 where there is no variable. Takes
/// no memory.
pub fn above_pairs(pairs: &[Pair]) -> u64
    ensures exact { result ≡ above_pairs (map plain_pair pairs.now) }
    ensures within { result ≤ 2 ^ 32 }
{
    let mut most = 0;
    for pair in pairs {
        most = above(&pair.left).max(above(&pair.right)).max(most);
    }
    most
}

/// One above the greatest variable number of a term, 0 where there is no variable. Costs as much as
/// the term has nodes, but goes into no subterm without a variable. Takes no memory.
#[cycle(above)]
pub fn above(term: &Term) -> u64
    ensures exact { result ≡ above term.now }
    ensures within { result ≤ 2 ^ 32 }
{
    if term.is_ground() {
        return 0;
    }
    match term.kind() {
        Kind::Variable { number, .. } => number as u64 + 1,
        Kind::Application { args, .. } => all_above(args),
    }
}

#[cycle(above)]
fn all_above(terms: &[Term]) -> u64
    ensures exact { result ≡ all_above (trees_of terms.now) }
    ensures within { result ≤ 2 ^ 32 }
{
    let mut most = 0;
    for term in terms {
        most = above(term).max(most);
    }
    most
}
