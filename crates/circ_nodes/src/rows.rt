//! How terms lie in memory.
ghost use Rattle.std.specs.Prelude.{◌≡◌, ◌++◌, ◌∷◌, ◌-◌, ◌<◌, ◌≤◌, ◌↔◌, []};
ghost use Rattle.std.specs.Prelude.{length, take, drop, Some, IsTrue, OnOk, OnErr};
ghost use Rattle.std.specs.List.{slice_get};
ghost use Rattle.circ_nodes.specs.Rows.{plain_root, arguments, roots, weights, begin_of};
ghost use Rattle.circ_nodes.specs.Rows.{row_weight, root_of, IsLaid, changed_args, changed_root};

use crate::nodes::Shape;
use std::alloc::{AllocError, Global};

// The most arguments of all terms.
const MOST_NUMBERS: usize = 4_294_967_295;

// What is kept of a term beside its root.
#[derive(Clone, Copy)]
pub(crate) struct Weight {
    pub size: u32,
    pub depth: u16,
    pub is_ground: bool,
}

// What is kept of a term. Its arguments begin where those of the term before it end.
#[derive(Clone, Copy)]
pub(crate) struct Row {
    // Of a variable its number, of an application its operator.
    pub name: u32,
    pub sort: u32,
    pub end: u32,
    pub size: u32,
    pub depth: u16,
    pub is_variable: bool,
    pub is_ground: bool,
}

// An operator on arguments, with another one at a place.
#[derive(Clone, Copy)]
pub(crate) struct Changed<'a> {
    pub op: u32,
    pub sort: u32,
    pub args: &'a [u32],
    pub place: usize,
    pub new: u32,
}

// The terms by number, and the numbers of the arguments of all.
#[derive(Drop)]
pub(crate) struct Rows {
    pub rows: Vec<Row>,
    pub args: Vec<u32>,
}

impl Rows {
    pub(crate) fn new(alloc: Global) -> Rows
        ensures rows { result.rows.items ≡ [] }
        ensures args { result.args.items ≡ [] }
    {
        Rows {
            rows: Vec::new(alloc),
            args: Vec::new(alloc),
        }
    }

    // Where the arguments of a term begin.
    fn begin(&self, place: usize) -> u32
        requires { place ≤ length self.now.rows.items }
        ensures { result ≡ begin_of 0 self.now.rows.items place }
    {
        if place == 0 {
            return 0;
        }
        self.rows[place - 1].end
    }

    // The term of a number, taken apart.
    pub(crate) fn shape(&self, number: u32) -> Shape<'_>
        requires rows { IsLaid self.now }
        requires there { number < length self.now.rows.items }
        ensures { slice_get (roots self.now) number ≡ Some (plain_root result) }
    {
        let place = number as usize;
        let row = &self.rows[place];
        if row.is_variable {
            return Shape::Variable {
                number: row.name,
                sort: row.sort,
            };
        }
        Shape::Application {
            op: row.name,
            sort: row.sort,
            args: part(self.args.as_slice(), self.begin(place), row.end),
        }
    }

    // Whether the term of a number has this root.
    pub(crate) fn is_at(&self, number: u32, root: Shape<'_>) -> bool
        requires rows { IsLaid self.now }
        requires there { number < length self.now.rows.items }
        ensures { IsTrue result
            ↔ (slice_get (roots self.now) number ≡ Some (plain_root root.entry)) }
    {
        same(self.shape(number), root)
    }

    // Whether the term of a number has this root.
    pub(crate) fn is_changed(&self, number: u32, root: Changed<'_>) -> bool
        requires rows { IsLaid self.now }
        requires there { number < length self.now.rows.items }
        ensures { IsTrue result
            ↔ (slice_get (roots self.now) number ≡ Some (changed_root root.entry)) }
    {
        same_changed(self.shape(number), root)
    }

    // What is kept of the term of a number beside its root.
    pub(crate) fn weight(&self, number: u32) -> Weight
        requires { number < length self.now.rows.items }
        ensures { slice_get (weights self.now) number ≡ Some result }
    {
        let row = &self.rows[number as usize];
        Weight {
            size: row.size,
            depth: row.depth,
            is_ground: row.is_ground,
        }
    }

    // A term goes last. After want of memory the terms are as before.
    pub(crate) fn push(&mut self, root: Shape<'_>, weight: Weight) -> Result<(), AllocError>
        requires rows { IsLaid self.old }
        ensures rows { IsLaid self.new }
        ensures roots { OnOk result (roots self.new
            ≡ roots self.old ++ plain_root root.entry ∷ []) }
        ensures weights { OnOk result (weights self.new ≡ weights self.old ++ weight ∷ []) }
        ensures err_roots { OnErr result (roots self.new ≡ roots self.old) }
        ensures err_weights { OnErr result (weights self.new ≡ weights self.old) }
    {
        let args = args_in(root);
        let end = self.args.len() + args.len();
        if end > MOST_NUMBERS {
            return Err(AllocError);
        }
        self.rows.reserve(1)?;
        self.args.extend_from_slice(args)?;
        self.rows.push_reserved(row_of(root, end as u32, weight));
        Ok(())
    }

    // The first terms alone are kept, as many as that.
    pub(crate) fn truncate(&mut self, count: usize)
        requires rows { IsLaid self.old }
        ensures rows { IsLaid self.new }
        ensures roots { roots self.new ≡ take count (roots self.old) }
        ensures weights { weights self.new ≡ take count (weights self.old) }
    {
        if count >= self.rows.len() {
            return;
        }
        let end = self.begin(count);
        self.rows.truncate(count);
        self.args.truncate(end as usize);
    }
}

fn part(numbers: &[u32], start: u32, end: u32) -> &[u32]
    requires start { start ≤ end }
    requires end { end ≤ length numbers.now }
    ensures { result.now ≡ take (end - start) (drop start numbers.now) }
{
    &numbers[start as usize..end as usize]
}

// The numbers of the arguments.
fn args_in(root: Shape<'_>) -> &[u32]
    ensures { result.now ≡ arguments (plain_root root.entry) }
{
    match root {
        Shape::Variable { .. } => &[],
        Shape::Application { args, .. } => args,
    }
}

// The row of a term whose arguments end there.
fn row_of(root: Shape<'_>, end: u32, weight: Weight) -> Row
    ensures root { root_of result (arguments (plain_root root.entry)) ≡ plain_root root.entry }
    ensures end { result.end ≡ end }
    ensures weight { row_weight result ≡ weight }
{
    let (name, sort, is_variable) = match root {
        Shape::Variable { number, sort } => (number, sort, true),
        Shape::Application { op, sort, .. } => (op, sort, false),
    };
    Row {
        name,
        sort,
        end,
        size: weight.size,
        depth: weight.depth,
        is_variable,
        is_ground: weight.is_ground,
    }
}

fn same(a: Shape<'_>, b: Shape<'_>) -> bool
    ensures { IsTrue result ↔ (plain_root a.entry ≡ plain_root b.entry) }
{
    match (a, b) {
        (
            Shape::Variable { number, sort },
            Shape::Variable {
                number: other,
                sort: other_sort,
            },
        ) => number == other && sort == other_sort,
        (
            Shape::Application { op, sort, args },
            Shape::Application {
                op: other,
                sort: other_sort,
                args: others,
            },
        ) => op == other && sort == other_sort && args == others,
        _ => false,
    }
}

fn same_changed(a: Shape<'_>, b: Changed<'_>) -> bool
    ensures { IsTrue result ↔ (plain_root a.entry ≡ changed_root b.entry) }
{
    match a {
        Shape::Variable { .. } => false,
        Shape::Application { op, sort, args } => {
            op == b.op && sort == b.sort && are_changed(args, b)
        }
    }
}

// Whether these are the arguments.
fn are_changed(args: &[u32], root: Changed<'_>) -> bool
    ensures { IsTrue result ↔ (args.now ≡ changed_args root.entry) }
{
    if args.len() != root.args.len() {
        return false;
    }
    for i in 0..args.len() {
        if args[i] != changed_arg(root, i) {
            return false;
        }
    }
    true
}

// The number of an argument.
pub(crate) fn changed_arg(root: Changed<'_>, place: usize) -> u32
    requires { place < length (changed_args root) }
    ensures { slice_get (changed_args root.entry) place ≡ Some result }
{
    if place == root.place {
        return root.new;
    }
    root.args[place]
}
