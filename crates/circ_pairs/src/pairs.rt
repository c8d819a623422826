//! Pairs of terms, and lists of them.
ghost use Rattle.std.specs.Prelude.{◌≡◌, ◌∷◌, ◌++◌, ◌==◌, [], length, map, IfOk};
ghost use Rattle.std.specs.Result.{OnOk, OnErr};
ghost use Rattle.std.specs.Option.{option_map};
ghost use Rattle.std.specs.List.{slice_get, list_any};
ghost use Rattle.circ_term.specs.Tree.{sort_of};
ghost use Rattle.circ_pairs.specs.Pairs.{plain_pair};
ghost use Rattle.circ_pairs.specs.Pair.{has_condition_of};

use circ_term::Term;
use std::alloc::{AllocError, Global};
use std::marker::Model;

/// Two terms of one sort.
#[derive(Drop)]
pub struct Pair {
    /// The left side.
    pub left: Term,
    /// The right side.
    pub right: Term,
}

/// A list of pairs, as the conditions of an equation or a goal are.
#[derive(Drop)]
pub struct Pairs {
    items: Vec<Pair>,
}

impl Model for Pairs {
    ghost use Rattle.std.specs.Prelude.{List, map};
    ghost use Rattle.circ_pairs.specs.Pair.{Pair, pairs_code};

    ghost Value = { List Pair };

    ghost coded = { pairs_code };

    ghost use Rattle.circ_pairs.specs.Pairs.{plain_pair};

    ghost view = { λ a. map plain_pair a.items.items };
}

impl Pairs {
    /// The empty list.
    pub fn new(alloc: Global) -> Pairs
        ensures { result ≡ [] }
    {
        Pairs {
            items: Vec::new(alloc),
        }
    }

    /// The pairs of a list.
    pub fn of(items: Vec<Pair>) -> Pairs
        ensures { result ≡ map plain_pair items.items }
    {
        Pairs { items }
    }

    /// Appends a pair.
    pub fn push(&mut self, pair: Pair) -> Result<(), AllocError>
        ensures pushed { OnOk result (self.new ≡ self.old ++ plain_pair pair ∷ []) }
        ensures err { OnErr result (self.new ≡ self.old) }
    {
        self.items.push(pair)?;
        Ok(())
    }

    /// The number of pairs.
    pub fn len(&self) -> usize
        ensures { result ≡ length self.now }
    {
        self.items.len()
    }

    /// Pair n, counted from 0.
    pub fn get(&self, n: usize) -> Option<&Pair>
        ensures { option_map (λ p. plain_pair p.now) result ≡ slice_get self.now n }
    {
        self.items.get(n)
    }

    /// The same pairs, whose terms are shared.
    pub fn share(&self, alloc: Global) -> Result<Pairs, AllocError>
        ensures { IfOk result (λ pairs. pairs ≡ self.now) }
    {
        Ok(Pairs::of(share_pairs(alloc, self.as_slice())?))
    }

    /// The pairs, in order.
    pub fn as_slice(&self) -> &[Pair]
        ensures { map plain_pair result.now ≡ self.now }
    {
        self.items.as_slice()
    }
}

/// The same pairs in a list of their own. Their terms are shared.
pub fn share_pairs(alloc: Global, pairs: &[Pair]) -> Result<Vec<Pair>, AllocError>
    ensures { IfOk result (λ v. map plain_pair v.items ≡ map plain_pair pairs.now) }
{
    let mut made = Vec::with_capacity(alloc, pairs.len())?;
    for pair in pairs {
        let left = pair.left.share()?;
        let right = pair.right.share()?;
        made.push(Pair { left, right })?;
    }
    Ok(made)
}

/// Whether one of the pairs is of this sort.
pub fn has_condition_of(sort: u32, conds: &Pairs) -> bool
    ensures { result ≡ has_condition_of sort conds.now }
{
    is_sort_of_one(sort, conds.as_slice())
}

fn is_sort_of_one(sort: u32, pairs: &[Pair]) -> bool
    ensures { result ≡ list_any (λ p. sort == sort_of p.left) pairs.now }
{
    pairs.iter().any(|pair| sort == pair.left.sort())
}
