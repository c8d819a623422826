//! The places of left sides that can become an interned term.
ghost use Rattle.std.specs.Prelude.{◌≡◌, ◌++◌, ◌<◌, length, map, OnOk, IfOk};
ghost use Rattle.std.specs.List.{AllByRecursion};
ghost use Rattle.circ_term.specs.Tree.{trees_of};
ghost use Rattle.circ_nodes.specs.Named.{tree_at};
ghost use Rattle.circ_index.specs.Keys.{root, first_root, rule_keys};
ghost use Rattle.circ_index.specs.Paths.{spot, after, after_all, closed, closed_all, keys_of_term};
ghost use Rattle.circ_index.specs.Walking.{IsOnWay, IsNextOn, term_seats};

use crate::finder::Finder;
use crate::keys::{ANY, key};
use crate::paths::{Ends, Leaves, MOST_NODES, PathFault, Paths, ROOT, STAR, Spot, Spots, spend};
use crate::rows::{END, least};
use crate::walk::Walk;
use circ_nodes::{Nodes, Shape};
use std::alloc::AllocError;

/// The keys of the left sides that can become the term of a number and are no variables.
pub fn number_keys(nodes: &Nodes, number: u32) -> [u64; 2]
    requires { number < length nodes.now }
    ensures { result ≡ rule_keys (tree_at nodes.now number) }
{
    let op = root_of(nodes, number);
    [key(op, first_root_of(nodes, number)), key(op, ANY)]
}

fn root_of(nodes: &Nodes, number: u32) -> u32
    requires { number < length nodes.now }
    ensures { result ≡ root (tree_at nodes.now number) }
{
    match nodes.shape(number) {
        Shape::Variable { .. } => ANY,
        Shape::Application { op, .. } => op,
    }
}

fn first_root_of(nodes: &Nodes, number: u32) -> u32
    requires { number < length nodes.now }
    ensures { result ≡ first_root (tree_at nodes.now number) }
{
    match nodes.shape(number) {
        Shape::Variable { .. } => ANY,
        Shape::Application { args, .. } => {
            if args.is_empty() {
                return ANY;
            }
            root_of(nodes, args[0])
        }
    }
}

impl Finder {
    /// The next place at or above `from` whose left side may become the term of a number; past all
    /// places if there is none.
    pub fn next_number(
        &self,
        nodes: &Nodes,
        number: u32,
        keys: &[u64],
        from: u32,
        walk: &mut Walk,
    ) -> Result<u32, AllocError>
        requires there { number < length nodes.now }
        requires way { IsOnWay self.now keys.now
            (term_seats self.now keys.now (tree_at nodes.now number)) from walk.old }
        ensures { IfOk result (IsNextOn self.now keys.now
            (term_seats self.now keys.now (tree_at nodes.now number)) from walk.new) }
    {
        let place = least(walk.ahead.as_slice());
        if place == END {
            return Ok(place);
        }
        if !walk.tires() {
            return Ok(place);
        }
        match self.paths.leaves_of_number(nodes, number) {
            Ok(leaves) => self.turn(leaves, keys, from, walk),
            Err(PathFault::TooMany) => Ok(place),
            Err(PathFault::Memory) => Err(AllocError),
        }
    }
}

impl Paths {
    // The leaves of the left sides that can become the term of a number.
    pub(crate) fn leaves_of_number(&self, nodes: &Nodes, number: u32) -> Result<Leaves, PathFault>
        requires { number < length nodes.now }
        ensures { IfOk result (λ v. v.items ≡ keys_of_term self.now (tree_at nodes.now number)) }
    {
        let mut left = MOST_NODES;
        let ends = self.ends_of_number(&[ROOT], nodes, number, &mut left)?;
        let closed = self.close_all_of_number(ends.as_slice(), nodes, number)?;
        self.leaves(closed.as_slice())
    }

    // Where the paths go from some nodes over the term of a number.
    fn ends_of_number(
        &self,
        from: &[usize],
        nodes: &Nodes,
        number: u32,
        left: &mut usize,
    ) -> Result<Spots, PathFault>
        requires { number < length nodes.now }
        ensures { IfOk result (λ v. v.items ≡ after self.now.branches.keys
            (map spot from.now) (tree_at nodes.now number)) }
    {
        let spots = self.begin(from)?;
        let mut ends = Spots::new(self.alloc);
        self.after_number(spots.as_slice(), nodes, number, &mut ends, left)?;
        Ok(ends)
    }

    fn close_all_of_number(
        &self,
        ends: &[Spot],
        nodes: &Nodes,
        number: u32,
    ) -> Result<Ends, AllocError>
        requires { number < length nodes.now }
        ensures { IfOk result (λ v. v.items
            ≡ closed_all self.now.branches.keys (tree_at nodes.now number) ends.now) }
    {
        let mut closed = Ends::new(self.alloc);
        for end in ends {
            self.close_number(*end, nodes, number, &mut closed)?;
        }
        Ok(closed)
    }

    // The nodes at which the term of a number ends that leads so far.
    fn close_number(
        &self,
        end: Spot,
        nodes: &Nodes,
        number: u32,
        found: &mut Ends,
    ) -> Result<(), AllocError>
        requires { number < length nodes.now }
        ensures { OnOk result (found.new.items ≡ found.old.items
            ++ closed self.now.branches.keys (tree_at nodes.now number) end) }
    {
        if end.left > 0 {
            found.push(end.node)?;
            return Ok(());
        }
        self.put_child(end.node, STAR, found)?;
        if nodes.is_ground(number) {
            self.put_child(end.node, nodes.size(number) as u32, found)?;
        }
        Ok(())
    }

    // Puts last where the paths go over the term of a number.
    #[cycle(after_number)]
    fn after_number(
        &self,
        from: &[Spot],
        nodes: &Nodes,
        number: u32,
        to: &mut Spots,
        left: &mut usize,
    ) -> Result<(), PathFault>
        requires { number < length nodes.now }
        ensures { OnOk result (to.new.items ≡ to.old.items
            ++ after self.now.branches.keys from.now (tree_at nodes.now number)) }
    {
        spend(left, from.len())?;
        self.stay(from, to)?;
        self.go(from, STAR, to)?;
        match nodes.shape(number) {
            Shape::Variable { .. } => Ok(()),
            Shape::Application { op, args, .. } => {
                let mut inside = Spots::new(self.alloc);
                self.go(from, op, &mut inside)?;
                let ends = self.after_numbers(inside, nodes, args, left)?;
                Ok(to.extend_from_slice(ends.as_slice())?)
            }
        }
    }

    #[cycle(after_number)]
    fn after_numbers(
        &self,
        from: Spots,
        nodes: &Nodes,
        numbers: &[u32],
        left: &mut usize,
    ) -> Result<Spots, PathFault>
        requires { AllByRecursion (λ n. n < length nodes.now) numbers.now }
        ensures { IfOk result (λ v. v.items ≡ after_all self.now.branches.keys from.items
            (trees_of (map (tree_at nodes.now) numbers.now))) }
    {
        let mut spots = from;
        for number in numbers {
            if spots.is_empty() {
                return Ok(spots);
            }
            let mut next = Spots::new(self.alloc);
            self.after_number(spots.as_slice(), nodes, *number, &mut next, left)?;
            spots = next;
        }
        Ok(spots)
    }
}
