//! How a table lies in memory.
ghost use Rattle.std.specs.Prelude.{◌≡◌, ◌-◌, ◌<◌, ◌≤◌, ◌↔◌, not};
ghost use Rattle.std.specs.Prelude.{length, take, drop, Some, IsTrue, IfOk, OnOk, OnErr};
ghost use Rattle.std.specs.List.{slice_get, AllByRecursion};
ghost use Rattle.std.specs.Option.{option_map};
ghost use Rattle.circ_term.specs.Tree.{Tree, sort_of, args_of, size_of};
ghost use Rattle.circ_proof.specs.Table.{has};
ghost use Rattle.circ_table.specs.Line.{numbers_in, IsLine};
ghost use Rattle.circ_table.specs.Table.{firsts_at};
ghost use Rattle.circ_table.specs.Lines.{AreLines, plain, trees, roots, begin_of, picked};
ghost use Rattle.circ_table.specs.Lines.{tree_at, IsNode, HasMore};

use crate::line::Line;
use circ_term::Term;
use std::alloc::{AllocError, Global};

// The most arguments of all terms.
const MOST_NUMBERS: usize = 4_294_967_295;

// What a term is.
#[derive(Clone, Copy, PartialEq, Eq)]
pub(crate) enum Kind {
    Variable,
    Application,
}

// A term's root, with the numbers of its arguments.
#[derive(Clone, Copy)]
pub(crate) struct Root<'a> {
    pub kind: Kind,
    // Of a variable its number, of an application its operator.
    pub name: u32,
    pub sort: u32,
    pub args: &'a [u32],
}

// A term of the table. Its arguments begin where those of the term before it end.
#[derive(Clone, Copy)]
pub(crate) struct Row {
    pub name: u32,
    pub sort: u32,
    pub end: u32,
    pub size: u32,
    pub depth: u16,
    pub kind: Kind,
    // Whether no term before it is the same.
    pub is_first: bool,
}

// The terms by number, and the numbers of the arguments of all.
#[derive(Drop)]
pub(crate) struct Lines {
    pub rows: Vec<Row>,
    pub args: Vec<u32>,
}

impl Lines {
    // Where the arguments of a term begin.
    fn begin(&self, place: usize) -> u32
        requires { place < length self.now.rows.items }
        ensures { result ≡ begin_of 0 self.now.rows.items place }
    {
        if place == 0 {
            return 0;
        }
        self.rows[place - 1].end
    }

    pub(crate) fn root(&self, place: usize) -> Root<'_>
        requires lines { AreLines self.now }
        requires place { place < length self.now.rows.items }
        ensures { slice_get (roots self.now) place ≡ Some (plain result) }
    {
        let start = self.begin(place);
        let row = &self.rows[place];
        Root {
            kind: row.kind,
            name: row.name,
            sort: row.sort,
            args: part(self.args.as_slice(), start, row.end),
        }
    }

    pub(crate) fn sort(&self, number: u32) -> Option<u32>
        requires { AreLines self.now }
        ensures { result ≡ option_map sort_of (slice_get (trees self.now) number) }
    {
        let number = number as usize;
        if number >= self.rows.len() {
            return None;
        }
        Some(self.rows[number].sort)
    }

    // Whether the term of a place has this root, whose tree has so many nodes. Where it has not as
    // many, its arguments are not looked at.
    pub(crate) fn is_here(&self, place: usize, root: Root<'_>, size: u32) -> bool
        requires lines { AreLines self.now }
        requires place { place < length self.now.rows.items }
        requires size { size ≡ size_of (tree_at (trees self.now) (plain root)) }
        ensures { IsTrue result ↔ (slice_get (roots self.now) place ≡ Some (plain root.entry)) }
    {
        if self.rows[place].size != size {
            return false;
        }
        same(self.root(place), root)
    }

    // A term goes last. After want of memory the terms are as before.
    pub(crate) fn push(
        &mut self,
        root: Root<'_>,
        size: u32,
        depth: u16,
        is_first: bool,
    ) -> Result<(), AllocError>
        requires lines { AreLines self.old }
        requires node { IsNode (trees self.old) (plain root) size depth }
        requires first { is_first
            ≡ not (has (trees self.old) (tree_at (trees self.old) (plain root))) }
        ensures pushed { OnOk result (HasMore self.old self.new (plain root.entry)) }
        ensures err_rows { OnErr result (self.new.rows.items ≡ self.old.rows.items) }
        ensures err_args { OnErr result (self.new.args.items ≡ self.old.args.items) }
    {
        let end = self.args.len() + root.args.len();
        if end > MOST_NUMBERS {
            return Err(AllocError);
        }
        self.rows.reserve(1)?;
        self.args.extend_from_slice(root.args)?;
        self.rows.push_reserved(Row {
            name: root.name,
            sort: root.sort,
            end: end as u32,
            size,
            depth,
            kind: root.kind,
            is_first,
        });
        Ok(())
    }

    // What the term of a place is.
    pub(crate) fn line(&self, place: usize) -> Line<'_>
        requires lines { AreLines self.now }
        requires place { place < length self.now.rows.items }
        ensures line { (t : Tree) → slice_get (trees self.now) place ≡ Some t
            → IsLine (trees self.now) result t }
        ensures before { AllByRecursion (λ n. n < place) (numbers_in result) }
    {
        let root = self.root(place);
        match root.kind {
            Kind::Variable => Line::Variable {
                number: root.name,
                sort: root.sort,
            },
            Kind::Application => Line::Application {
                op: root.name,
                sort: root.sort,
                args: root.args,
            },
        }
    }

    // The numbers of the arguments of a term.
    pub(crate) fn args(&self, place: usize) -> &[u32]
        requires lines { AreLines self.now }
        requires place { place < length self.now.rows.items }
        ensures args { (t : Tree) → slice_get (trees self.now) place ≡ Some t
            → firsts_at (trees self.now) result.now ≡ Some (args_of t) }
        ensures before { AllByRecursion (λ n. n < place) result.now }
    {
        self.root(place).args
    }

    // The term of a number, from its arguments.
    pub(crate) fn build(
        &self,
        alloc: Global,
        place: usize,
        args: Vec<Term>,
    ) -> Result<Term, AllocError>
        requires lines { AreLines self.now }
        requires place { place < length self.now.rows.items }
        requires args { (t : Tree) → slice_get (trees self.now) place ≡ Some t
            → args.items ≡ args_of t }
        ensures { IfOk result (λ t. slice_get (trees self.now) place ≡ Some t) }
    {
        let root = self.root(place);
        match root.kind {
            Kind::Variable => Ok(Term::var(root.name, root.sort)),
            Kind::Application => match Term::app(alloc, root.name, root.sort, args) {
                Ok(term) => Ok(term),
                Err(_) => Err(AllocError),
            },
        }
    }

    // All terms, by number.
    pub(crate) fn terms(&self, alloc: Global) -> Result<Vec<Term>, AllocError>
        requires { AreLines self.now }
        ensures { IfOk result (λ v. v.items ≡ trees self.now) }
    {
        let mut terms = Vec::with_capacity(alloc, self.rows.len())?;
        for place in 0..self.rows.len() {
            let args = pick(alloc, terms.as_slice(), self.args(place))?;
            terms.push(self.build(alloc, place, args)?)?;
        }
        Ok(terms)
    }
}

fn part(numbers: &[u32], start: u32, end: u32) -> &[u32]
    requires start { start ≤ end }
    requires end { end ≤ length numbers.now }
    ensures { result.now ≡ take (end - start) (drop start numbers.now) }
{
    &numbers[start as usize..end as usize]
}

fn same(a: Root<'_>, b: Root<'_>) -> bool
    ensures { IsTrue result ↔ (plain a.entry ≡ plain b.entry) }
{
    if a.kind != b.kind || a.name != b.name || a.sort != b.sort {
        return false;
    }
    a.args == b.args
}

// The terms at these places.
fn pick(alloc: Global, terms: &[Term], places: &[u32]) -> Result<Vec<Term>, AllocError>
    requires { AllByRecursion (λ n. n < length terms.now) places.now }
    ensures { IfOk result (λ v. v.items ≡ picked terms.now places.now) }
{
    let mut copy = Vec::with_capacity(alloc, places.len())?;
    for place in places {
        terms[*place as usize].share_to(&mut copy)?;
    }
    Ok(copy)
}
