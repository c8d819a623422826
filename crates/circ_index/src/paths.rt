//! Patterns as paths of a tree, and the leaves to which a term leads.
ghost use Rattle.std.specs.Prelude.{◌≡◌, ◌++◌, ◌<◌, Some, OnOk, IfOk, map};
ghost use Rattle.circ_term.specs.Tree.{trees_of};
ghost use Rattle.circ_index.specs.Paths.{child_in, leaf_in, Grows, end_of, end_of_all};
ghost use Rattle.circ_index.specs.Paths.{side_symbol, side_end, key_of_left, key_of_pair};
ghost use Rattle.circ_index.specs.Paths.{staying, going, gone, after, after_all, closed};
ghost use Rattle.circ_index.specs.Paths.{side_after, leaves_in, keys_of_term, keys_of_two};
ghost use Rattle.circ_index.specs.Paths.{by_branch, spot, listed, closed_all};

use circ_term::{Kind, Term};
use indexmap::IndexSet;
use smallvec::SmallVec;
use std::alloc::{AllocError, Global};

// Stands for a variable of a pattern.
pub(crate) const STAR: u32 = 4_294_967_295;

// The node at which all paths begin.
pub(crate) const ROOT: usize = 18_446_744_073_709_551_615;

// So many symbols of a side are told apart.
const MOST_SYMBOLS: u32 = 64;

// So many nodes are gone over for a term, and so many leaves are found, at most.
pub(crate) const MOST_NODES: usize = 256;

const MOST_LEAVES: usize = 32;

// A branch goes from a node by a symbol. The node to which it goes has its place as the number.
#[derive(Clone, Copy, PartialEq, Eq, Hash)]
struct Branch {
    node: usize,
    symbol: u32,
}

// A node on the path of a side, and how many branches more the path can have.
#[derive(Clone, Copy, Default)]
pub(crate) struct Spot {
    pub(crate) node: usize,
    pub(crate) left: u32,
}

// Nodes at which paths end. Few need no memory of their own.
pub(crate) type Ends = SmallVec<usize, 8>;

pub(crate) type Spots = SmallVec<Spot, 6>;

// Numbers of leaves. Few need no memory of their own.
pub(crate) type Leaves = SmallVec<u64, 8>;

// Why the leaves to which a term leads are not known.
#[derive(Drop)]
pub(crate) enum PathFault {
    Memory,
    TooMany,
}

impl From<AllocError> for PathFault {
    ghost use Rattle.std.specs.Prelude.{◌≡◌};
    ghost use Rattle.circ_index.specs.declared.paths.PathFault.TheVariants.{Memory};

    ghost from_gives = { λ _ e. e ≡ Memory };

    fn from(_: AllocError) -> PathFault {
        PathFault::Memory
    }
}

// The paths of patterns: in preorder, a branch for each operator, and one that stands for all
// variables. Of a long side the first symbols are told apart, and its size where it has no
// variable.
#[derive(Drop)]
pub(crate) struct Paths {
    pub(crate) alloc: Global,
    branches: IndexSet<Branch>,
    leaves: IndexSet<usize>,
}

impl Paths {
    // No paths.
    pub(crate) fn new(alloc: Global) -> Paths {
        Paths {
            alloc,
            branches: IndexSet::new(alloc),
            leaves: IndexSet::new(alloc),
        }
    }

    // The node to which a branch goes.
    fn child(&self, node: usize, symbol: u32) -> Option<usize>
        ensures { result ≡ child_in self.now.branches.keys node symbol }
    {
        self.branches.get_index_of(&Branch { node, symbol })
    }

    // The same. Where there is no such branch, there is now.
    fn enter(&mut self, node: usize, symbol: u32) -> Result<usize, AllocError>
        ensures grows { Grows self.old self.new }
        ensures entered { IfOk result
            (λ n. child_in self.new.branches.keys node symbol ≡ Some n) }
    {
        let (child, _is_new) = self.branches.insert_full(Branch { node, symbol })?;
        Ok(child)
    }

    // The leaf at a node. Where there is none, there is now.
    fn enter_leaf(&mut self, node: usize) -> Result<u64, AllocError>
        ensures grows { Grows self.old self.new }
        ensures entered { IfOk result (λ k. leaf_in self.new.leaves.keys node ≡ Some k) }
    {
        let (leaf, _is_new) = self.leaves.insert_full(node)?;
        Ok(leaf as u64)
    }

    // The leaf of a left side. Where there is none, there is now.
    pub(crate) fn add_left(&mut self, left: &Term) -> Result<u64, AllocError>
        ensures grows { Grows self.old self.new }
        ensures key { IfOk result (λ k. key_of_left self.new left.now ≡ Some k) }
    {
        let node = self.add_side(ROOT, left)?;
        self.enter_leaf(node)
    }

    // The leaf of a pair. Where there is none, there is now.
    pub(crate) fn add_pair(&mut self, left: &Term, right: &Term) -> Result<u64, AllocError>
        ensures grows { Grows self.old self.new }
        ensures key { IfOk result (λ k. key_of_pair self.new (left.now, right.now) ≡ Some k) }
    {
        let middle = self.add_side(ROOT, left)?;
        let node = self.add_side(middle, right)?;
        self.enter_leaf(node)
    }

    // The node to which the path of a side goes from another.
    fn add_side(&mut self, node: usize, side: &Term) -> Result<usize, AllocError>
        ensures grows { Grows self.old self.new }
        ensures end { IfOk result
            (λ n. side_end self.new.branches.keys node side.now ≡ Some n) }
    {
        let left = MOST_SYMBOLS;
        let end = self.grow(Spot { node, left }, side)?;
        if end.left > 0 {
            return Ok(end.node);
        }
        self.enter(end.node, side_symbol(side))
    }

    // Where the path of a pattern ends.
    #[cycle(grow)]
    fn grow(&mut self, from: Spot, pattern: &Term) -> Result<Spot, AllocError>
        ensures grows { Grows self.old self.new }
        ensures end { IfOk result (λ p. end_of self.new.branches.keys from pattern.now ≡ Some p) }
    {
        if from.left == 0 {
            return Ok(from);
        }
        match pattern.kind() {
            Kind::Variable { .. } => self.grow_by(from, STAR),
            Kind::Application { op, args, .. } => {
                let inside = self.grow_by(from, op)?;
                self.grow_all(inside, args)
            }
        }
    }

    #[cycle(grow)]
    fn grow_all(&mut self, from: Spot, patterns: &[Term]) -> Result<Spot, AllocError>
        ensures grows { Grows self.old self.new }
        ensures end { IfOk result (λ p.
            end_of_all self.new.branches.keys (Some from) (trees_of patterns.now) ≡ Some p) }
    {
        let mut spot = from;
        for pattern in patterns {
            spot = self.grow(spot, pattern)?;
        }
        Ok(spot)
    }

    // One branch further.
    fn grow_by(&mut self, from: Spot, symbol: u32) -> Result<Spot, AllocError>
        requires { 0 < from.left }
        ensures grows { Grows self.old self.new }
        ensures end { IfOk result (λ p. by_branch self.new.branches.keys symbol from ≡ Some p) }
    {
        let node = self.enter(from.node, symbol)?;
        let left = from.left - 1;
        Ok(Spot { node, left })
    }

    // The leaves of the left sides that can become the term.
    pub(crate) fn leaves_of_term(&self, term: &Term) -> Result<Leaves, PathFault>
        ensures { IfOk result (λ v. v.items ≡ keys_of_term self.now term.now) }
    {
        let mut left = MOST_NODES;
        let nodes = self.side(&[ROOT], term, &mut left)?;
        self.leaves(nodes.as_slice())
    }

    // The leaves of the pairs that can become the two terms.
    pub(crate) fn leaves_of_two(&self, a: &Term, b: &Term) -> Result<Leaves, PathFault>
        ensures { IfOk result (λ v. v.items ≡ keys_of_two self.now a.now b.now) }
    {
        let mut left = MOST_NODES;
        let middle = self.side(&[ROOT], a, &mut left)?;
        let nodes = self.side(middle.as_slice(), b, &mut left)?;
        self.leaves(nodes.as_slice())
    }

    // The leaves at nodes.
    pub(crate) fn leaves(&self, nodes: &[usize]) -> Result<Leaves, PathFault>
        ensures { IfOk result (λ v. v.items ≡ leaves_in self.now.leaves.keys nodes.now) }
    {
        if nodes.len() > MOST_LEAVES {
            return Err(PathFault::TooMany);
        }
        let mut leaves = Leaves::new(self.alloc);
        for node in nodes {
            self.put_leaf(*node, &mut leaves)?;
        }
        Ok(leaves)
    }

    // Puts the leaf at a node last.
    fn put_leaf(&self, node: usize, leaves: &mut Leaves) -> Result<(), AllocError>
        ensures { OnOk result (leaves.new.items
            ≡ leaves.old.items ++ listed (leaf_in self.now.leaves.keys node)) }
    {
        if let Some(leaf) = self.leaves.get_index_of(&node) {
            leaves.push(leaf as u64)?;
        }
        Ok(())
    }

    // The nodes to which a side leads from others. `left` is how many more may be gone over.
    fn side(&self, from: &[usize], side: &Term, left: &mut usize) -> Result<Ends, PathFault>
        ensures { IfOk result
            (λ v. v.items ≡ side_after self.now.branches.keys from.now side.now) }
    {
        let ends = self.ends(from, side, left)?;
        Ok(self.close_all(ends.as_slice(), side)?)
    }

    // Where the paths go from nodes over a side.
    fn ends(&self, from: &[usize], side: &Term, left: &mut usize) -> Result<Spots, PathFault>
        ensures { IfOk result
            (λ v. v.items ≡ after self.now.branches.keys (map spot from.now) side.now) }
    {
        let spots = self.begin(from)?;
        let mut ends = Spots::new(self.alloc);
        self.after(spots.as_slice(), side, &mut ends, left)?;
        Ok(ends)
    }

    // Where paths begin at nodes.
    pub(crate) fn begin(&self, nodes: &[usize]) -> Result<Spots, AllocError>
        ensures { IfOk result (λ v. v.items ≡ map spot nodes.now) }
    {
        let mut spots = Spots::new(self.alloc);
        for node in nodes {
            spots.push(Spot {
                node: *node,
                left: MOST_SYMBOLS,
            })?;
        }
        Ok(spots)
    }

    fn close_all(&self, ends: &[Spot], side: &Term) -> Result<Ends, AllocError>
        ensures { IfOk result
            (λ v. v.items ≡ closed_all self.now.branches.keys side.now ends.now) }
    {
        let mut nodes = Ends::new(self.alloc);
        for end in ends {
            self.close(*end, side, &mut nodes)?;
        }
        Ok(nodes)
    }

    // The nodes at which a side ends that leads so far.
    fn close(&self, end: Spot, side: &Term, nodes: &mut Ends) -> Result<(), AllocError>
        ensures { OnOk result (nodes.new.items
            ≡ nodes.old.items ++ closed self.now.branches.keys side.now end) }
    {
        if end.left > 0 {
            nodes.push(end.node)?;
            return Ok(());
        }
        self.put_child(end.node, STAR, nodes)?;
        if side.is_ground() {
            self.put_child(end.node, side_symbol(side), nodes)?;
        }
        Ok(())
    }

    // Puts the node last to which a branch goes.
    pub(crate) fn put_child(
        &self,
        node: usize,
        symbol: u32,
        nodes: &mut Ends,
    ) -> Result<(), AllocError>
        ensures { OnOk result (nodes.new.items
            ≡ nodes.old.items ++ listed (child_in self.now.branches.keys node symbol)) }
    {
        if let Some(child) = self.child(node, symbol) {
            nodes.push(child)?;
        }
        Ok(())
    }

    // Puts last where the paths go over a term.
    #[cycle(after)]
    fn after(
        &self,
        from: &[Spot],
        term: &Term,
        to: &mut Spots,
        left: &mut usize,
    ) -> Result<(), PathFault>
        ensures { OnOk result (to.new.items
            ≡ to.old.items ++ after self.now.branches.keys from.now term.now) }
    {
        spend(left, from.len())?;
        self.stay(from, to)?;
        self.go(from, STAR, to)?;
        match term.kind() {
            Kind::Variable { .. } => Ok(()),
            Kind::Application { op, args, .. } => {
                let mut inside = Spots::new(self.alloc);
                self.go(from, op, &mut inside)?;
                let ends = self.after_all(inside, args, left)?;
                Ok(to.extend_from_slice(ends.as_slice())?)
            }
        }
    }

    #[cycle(after)]
    fn after_all(&self, from: Spots, terms: &[Term], left: &mut usize) -> Result<Spots, PathFault>
        ensures { IfOk result (λ v.
            v.items ≡ after_all self.now.branches.keys from.items (trees_of terms.now)) }
    {
        let mut spots = from;
        for term in terms {
            if spots.is_empty() {
                return Ok(spots);
            }
            let mut next = Spots::new(self.alloc);
            self.after(spots.as_slice(), term, &mut next, left)?;
            spots = next;
        }
        Ok(spots)
    }

    // Puts those last that can go no further.
    pub(crate) fn stay(&self, from: &[Spot], to: &mut Spots) -> Result<(), AllocError>
        ensures { OnOk result (to.new.items ≡ to.old.items ++ staying from.now) }
    {
        for spot in from {
            if spot.left == 0 {
                to.push(*spot)?;
            }
        }
        Ok(())
    }

    // Puts those last to which the others go by a branch.
    pub(crate) fn go(&self, from: &[Spot], symbol: u32, to: &mut Spots) -> Result<(), AllocError>
        ensures { OnOk result (to.new.items
            ≡ to.old.items ++ going self.now.branches.keys symbol from.now) }
    {
        for spot in from {
            if let Some(next) = self.go_by(*spot, symbol) {
                to.push(next)?;
            }
        }
        Ok(())
    }

    fn go_by(&self, from: Spot, symbol: u32) -> Option<Spot>
        ensures { result ≡ gone self.now.branches.keys symbol from }
    {
        if from.left == 0 {
            return None;
        }
        let node = self.child(from.node, symbol)?;
        let left = from.left - 1;
        Some(Spot { node, left })
    }
}

// Takes so many nodes off those that may still be gone over.
pub(crate) fn spend(left: &mut usize, count: usize) -> Result<(), PathFault> {
    if *left < count {
        return Err(PathFault::TooMany);
    }
    *left -= count;
    Ok(())
}

// What tells long sides apart: the size, where there is no variable.
fn side_symbol(side: &Term) -> u32
    ensures { result ≡ side_symbol side.now }
{
    if side.is_ground() {
        side.size() as u32
    } else {
        STAR
    }
}
