//! A table to which terms are added.
ghost use Rattle.std.specs.Prelude.{◌≡◌, ◌*◌, ◌<◌, ◌≤◌, ◌++◌, ◌∷◌};
ghost use Rattle.std.specs.Prelude.{[], List, length, Some, None};
ghost use Rattle.std.specs.Prelude.{IfOk, OnOk, OnErr};
ghost use Rattle.std.specs.Option.{option_map};
ghost use Rattle.circ_term.specs.Tree.{Tree, Var, App, trees_of, sort_of};
ghost use Rattle.circ_term.specs.Tree.{size_of, sizes_of, depths_of};
ghost use Rattle.circ_term.specs.Limits.{argument_limit, node_limit, depth_limit, first_limits};
ghost use Rattle.circ_proof.specs.Table.{term_limit, has};
ghost use Rattle.circ_table.specs.Table.{first_at, firsts_at, AddsRow};
ghost use Rattle.circ_table.specs.Lines.{plain, tree_at, IsThere, IsNode};
ghost use Rattle.circ_table.specs.Keys.{root_key};

use crate::keys::key_of;
use crate::lines::{Kind, Lines, Root};
use crate::table::Table;
use circ_hash_chains::HashChains;
use circ_term::{MOST_DEPTH, MOST_NODES, TermFault};
use std::alloc::{AllocError, Global};
use std::marker::Model;

/// A table to which terms are added. It keeps numbers: 20 bytes for each term and 4 for each
/// argument, and 12 to 16 for each term by which equal terms are found.
#[derive(Drop)]
pub struct OpenTable {
    alloc: Global,
    lines: Lines,
    // The keys of the terms' roots, in the same order.
    chains: HashChains,
}

impl Model for OpenTable {
    ghost use Rattle.std.specs.Prelude.{List};
    ghost use Rattle.std.specs.Coded.{coded_list};
    ghost use Rattle.circ_term.specs.Tree.{Tree};
    ghost use Rattle.circ_term.specs.Code.{tree_code};

    ghost Value = { List Tree };

    ghost coded = { coded_list tree_code };

    ghost use Rattle.circ_table.specs.Lines.{trees};
    ghost use Rattle.circ_table.specs.Keys.{AreRows};

    ghost view = { λ a. trees a.lines };

    ghost invariant = { λ a. AreRows a.lines a.chains };
}

impl OpenTable {
    /// No terms.
    pub fn new(alloc: Global) -> OpenTable
        ensures { result ≡ [] }
    {
        OpenTable {
            alloc,
            lines: Lines {
                rows: Vec::new(alloc),
                args: Vec::new(alloc),
            },
            chains: HashChains::new(alloc),
        }
    }

    /// How many terms there are.
    pub fn len(&self) -> usize
        ensures { result ≡ length self.now }
    {
        self.lines.rows.len()
    }

    /// The sort of the term of which this is the least number.
    pub fn first_sort(&self, number: u32) -> Option<u32>
        ensures { result ≡ option_map sort_of (first_at self.now number) }
    {
        let number = number as usize;
        if number >= self.lines.rows.len() {
            return None;
        }
        let row = &self.lines.rows[number];
        if row.is_first { Some(row.sort) } else { None }
    }

    /// A variable goes last.
    pub fn add_variable(&mut self, number: u32, sort: u32) -> Result<(), AllocError>
        requires room { length self.old < term_limit }
        ensures added { OnOk result (self.new ≡ self.old ++ Var number sort ∷ []) }
        ensures err { OnErr result (self.new ≡ self.old) }
    {
        let root = Root {
            kind: Kind::Variable,
            name: number,
            sort,
            args: &[],
        };
        self.push(root, 1, 1)
    }

    /// An operator on the terms of these numbers goes last. Each is the least number of its term. A
    /// call that would have more than 4,294,967,295 numbers kept answers want of memory. Costs as
    /// much as there are arguments, if hashes spread well.
    pub fn add_application(&mut self, op: u32, sort: u32, args: &[u32]) -> Result<(), TermFault>
        requires room { length self.old < term_limit }
        requires few { length args.now ≤ argument_limit }
        requires firsts { (ts : List Tree) × (firsts_at self.old args.now ≡ Some ts) }
        ensures { (ts : List Tree) → firsts_at self.old args.now ≡ Some ts →
            AddsRow self.old self.new (App op sort (trees_of ts)) result }
    {
        let (sizes, depths) = self.measure(args);
        let nodes = sizes + 1;
        let depth = depths as u64 + 1;
        if nodes > MOST_NODES {
            return Err(TermFault::TooBig { nodes });
        }
        if depth > MOST_DEPTH {
            return Err(TermFault::TooDeep { depth });
        }
        let root = Root {
            kind: Kind::Application,
            name: op,
            sort,
            args,
        };
        match self.push(root, nodes as u32, depth as u16) {
            Ok(()) => Ok(()),
            Err(_) => Err(TermFault::Memory),
        }
    }

    /// The table, to which no more is added.
    pub fn close(self) -> Result<Table, AllocError>
        ensures { IfOk result (λ t. t ≡ self) }
    {
        Table::new(self.alloc, self.lines)
    }

    // The nodes of the terms of these numbers together, and the depth of the deepest.
    fn measure(&self, args: &[u32]) -> (u64, u16)
        requires few { length args.now ≤ argument_limit }
        requires firsts { (ts : List Tree) × (firsts_at self.now args.now ≡ Some ts) }
        ensures sizes { (ts : List Tree) → firsts_at self.now args.now ≡ Some ts
            → result.0 ≡ sizes_of (trees_of ts) }
        ensures depths { (ts : List Tree) → firsts_at self.now args.now ≡ Some ts
            → result.1 ≡ depths_of (trees_of ts) }
        ensures within { (ts : List Tree) → firsts_at self.now args.now ≡ Some ts
            → first_limits (trees_of ts) ≡ None }
        ensures few { result.0 ≤ argument_limit * node_limit }
        ensures shallow { result.1 ≤ depth_limit }
    {
        let mut sizes: u64 = 0;
        let mut depths: u16 = 0;
        for arg in args {
            let row = &self.lines.rows[*arg as usize];
            sizes += row.size as u64;
            depths = depths.max(row.depth);
        }
        (sizes, depths)
    }

    // Whether a term has this root, which has this key and whose tree has so many nodes.
    fn finds(&self, root: Root<'_>, size: u32, key: u32) -> bool
        requires there { IsThere self.now (plain root) }
        requires size { size ≡ size_of (tree_at self.now (plain root)) }
        requires key { key ≡ root_key (plain root) }
        ensures { result ≡ has self.now (tree_at self.now (plain root.entry)) }
    {
        let mut next = self.chains.newest(key);
        while let Some(number) = next {
            if self.lines.is_here(number as usize, root, size) {
                return true;
            }
            next = self.chains.older(number);
        }
        false
    }

    // A term goes last.
    fn push(&mut self, root: Root<'_>, size: u32, depth: u16) -> Result<(), AllocError>
        requires room { length self.old < term_limit }
        requires node { IsNode self.old (plain root) size depth }
        ensures added { OnOk result (self.new
            ≡ self.old ++ tree_at self.old (plain root.entry) ∷ []) }
        ensures err { OnErr result (self.new ≡ self.old) }
    {
        let key = key_of(root);
        let is_first = !self.finds(root, size, key);
        let count = self.len();
        self.chains.push(key)?;
        if let Err(fault) = self.lines.push(root, size, depth, is_first) {
            self.chains.truncate(count);
            return Err(fault);
        }
        Ok(())
    }
}
