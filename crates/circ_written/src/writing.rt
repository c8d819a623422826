//! The rows of what is written out, one after another.
ghost use Rattle.std.specs.Prelude.{◌≡◌, ◌<◌, ◌++◌, ◌∷◌, List, [], length, map, IfOk, OnOk};
ghost use Rattle.circ_expansion.specs.Pieces.{other_way};
ghost use Rattle.circ_expansion.specs.Expand.{by_way};
ghost use Rattle.circ_written.specs.Rows.{given_bound, plain_row, rows_of, parts_rows};
ghost use Rattle.circ_written.specs.Nodes.{AreValues, AreNodesFrom, IsLink, piece_of, values_in};
ghost use Rattle.circ_written.specs.Nodes.{rope_at, row_of, parts_of, value_of, And_link, And_row};
ghost use Rattle.circ_written.specs.Values.{values_of, IsLastRow};
ghost use Rattle.circ_written.specs.Writing.{IsRowOf, composed, in_order, three_in_order};
ghost use Rattle.circ_written.specs.Writing.{cases_open, part_open, IsOpen, RowOpens, PartsOpen};
ghost use Rattle.circ_written.specs.Writing.{WritesOne};
ghost use Rattle.circ_written.specs.declared.nodes.Node.{Node as TheNode};
ghost use Rattle.circ_written.specs.declared.rows.Row.TheVariants.{Equation, Content, Assumption};

use crate::nodes::{Node, kind_at};
use crate::rows::{Given, Row};
use crate::values::Values;
use circ_term::{Path, Term, share_all};
use circ_theory::Way;
use std::alloc::{AllocError, Global};

// What is still to be written: a row or parts of cases in a way, or a row that is ready.
#[derive(Drop)]
pub(crate) enum Open {
    Row { number: usize, way: Way },
    Parts { number: usize, way: Way },
    Ready { row: Row },
}

impl Values {
    /// The rows of the one value that is left, if it is one and a row. Costs as much as it has
    /// rows.
    pub fn rows(&self, alloc: Global) -> Result<Option<Vec<Row>>, AllocError>
        ensures { IfOk result (IsLastRow (values_of self.now)) }
    {
        last_rows(alloc, self.nodes.as_slice(), self.stack.as_slice())
    }
}

// The same of these nodes and numbers.
fn last_rows(alloc: Global, nodes: &[Node], stack: &[usize]) -> Result<Option<Vec<Row>>, AllocError>
    requires { AreValues nodes.now stack.now }
    ensures { IfOk result (IsLastRow (values_in nodes.now stack.now)) }
{
    let Some((number, rest)) = stack.split_first() else {
        return Ok(None);
    };
    if rest.is_empty() {
        return rows_alone(alloc, nodes, *number);
    }
    Ok(None)
}

// The rows of the value of this number, if it is a row.
fn rows_alone(alloc: Global, nodes: &[Node], number: usize) -> Result<Option<Vec<Row>>, AllocError>
    requires nodes { AreNodesFrom 0 nodes.now }
    requires within { number < length nodes.now }
    ensures { IfOk result (IsLastRow (value_of (rope_at nodes.now number) ∷ [])) }
{
    if kind_at(nodes, number) {
        let rows = written(alloc, nodes, number)?;
        return Ok(Some(rows));
    }
    Ok(None)
}

// The rows of the row of this number.
fn written(alloc: Global, nodes: &[Node], number: usize) -> Result<Vec<Row>, AllocError>
    requires nodes { AreNodesFrom 0 nodes.now }
    requires within { number < length nodes.now }
    ensures { IfOk result (λ rows. map plain_row rows.items ≡
        rows_of (row_of (rope_at nodes.now number))) }
{
    let mut rows = Vec::new(alloc);
    let mut ahead = Vec::new(alloc);
    let way = Way::Forth;
    ahead.push(Open::Row { number, way })?;
    while let Some(next) = ahead.pop() {
        write_next(alloc, nodes, &mut ahead, &mut rows, next)?;
    }
    Ok(rows)
}

// Writes a row, or opens what a node is made of.
fn write_next(
    alloc: Global,
    nodes: &[Node],
    ahead: &mut Vec<Open>,
    rows: &mut Vec<Row>,
    next: Open,
) -> Result<(), AllocError>
    requires nodes { AreNodesFrom 0 nodes.now }
    requires next { IsOpen nodes.now next }
    ensures { OnOk result (WritesOne nodes.now next ahead.old.items ahead.new.items
        rows.old.items rows.new.items) }
{
    match next {
        Open::Row { number, way } => open_row(alloc, nodes, number, way, ahead),
        Open::Parts { number, way } => open_parts(nodes, number, way, ahead),
        Open::Ready { row } => write_ready(rows, row),
    }
}

fn write_ready(rows: &mut Vec<Row>, row: Row) -> Result<(), AllocError>
    ensures { OnOk result (rows.new.items ≡ rows.old.items ++ row ∷ []) }
{
    rows.push(row)?;
    Ok(())
}

// Opens what a row is made of.
fn open_row(
    alloc: Global,
    nodes: &[Node],
    number: usize,
    way: Way,
    ahead: &mut Vec<Open>,
) -> Result<(), AllocError>
    requires nodes { AreNodesFrom 0 nodes.now }
    requires within { number < length nodes.now }
    ensures { OnOk result (RowOpens nodes.now way ahead.old.items ahead.new.items
        (rope_at nodes.now number)) }
{
    match &nodes[number] {
        Node::Empty => Ok(()),
        Node::Link { first, row } => open_link(alloc, ahead, way, *first, row),
        Node::Behind {
            first,
            way: own,
            next,
        } => open_behind(ahead, way, *first, *own, *next),
        Node::Between {
            left,
            middle,
            right,
        } => open_three(ahead, way, *left, *middle, *right),
        Node::NoPart => Ok(()),
        Node::Part { .. } => Ok(()),
        Node::Cases { term, parts } => open_cases(ahead, way, term, *parts),
    }
}

// Opens a row with a link behind it.
fn open_link(
    alloc: Global,
    ahead: &mut Vec<Open>,
    way: Way,
    first: usize,
    link: &Row,
) -> Result<(), AllocError>
    requires { IsLink link.now }
    ensures { (ns : List TheNode) → first < length ns → OnOk result (RowOpens ns way
        ahead.old.items ahead.new.items (And_link (rope_at ns first) link.now)) }
{
    let copy = share_link(alloc, link)?;
    let row = in_way(copy, way);
    let first = Open::Row { number: first, way };
    open_two(ahead, way, first, Open::Ready { row })
}

// Opens a row behind another in a way of its own.
fn open_behind(
    ahead: &mut Vec<Open>,
    way: Way,
    first: usize,
    own: Way,
    next: usize,
) -> Result<(), AllocError>
    ensures { (ns : List TheNode) → first < length ns → next < length ns →
        OnOk result (RowOpens ns way ahead.old.items ahead.new.items
        (And_row (rope_at ns first) own (rope_at ns next))) }
{
    let within = composed(own, way);
    let first = Open::Row { number: first, way };
    let next = Open::Row {
        number: next,
        way: within,
    };
    open_two(ahead, way, first, next)
}

// Opens two, of which in this way the first comes first.
fn open_two(ahead: &mut Vec<Open>, way: Way, first: Open, next: Open) -> Result<(), AllocError>
    ensures { OnOk result (ahead.new.items ≡ ahead.old.items ++ in_order way first next) }
{
    match way {
        Way::Forth => {
            ahead.push(next)?;
            ahead.push(first)?;
        }
        Way::Back => {
            ahead.push(first)?;
            ahead.push(next)?;
        }
    }
    Ok(())
}

// Opens a row between two others, of which the second is turned.
fn open_three(
    ahead: &mut Vec<Open>,
    way: Way,
    left: usize,
    middle: usize,
    right: usize,
) -> Result<(), AllocError>
    ensures { OnOk result (ahead.new.items ≡ ahead.old.items ++
        three_in_order way left middle right) }
{
    match way {
        Way::Forth => {
            let way = Way::Back;
            ahead.push(Open::Row { number: right, way })?;
            let way = Way::Forth;
            ahead.push(Open::Row {
                number: middle,
                way,
            })?;
            ahead.push(Open::Row { number: left, way })?;
        }
        Way::Back => {
            ahead.push(Open::Row { number: left, way })?;
            ahead.push(Open::Row {
                number: middle,
                way,
            })?;
            let way = Way::Forth;
            ahead.push(Open::Row { number: right, way })?;
        }
    }
    Ok(())
}

// Opens the row of cases, their parts, and the row at their end.
fn open_cases(ahead: &mut Vec<Open>, way: Way, term: &Term, parts: usize) -> Result<(), AllocError>
    ensures { OnOk result (ahead.new.items ≡ ahead.old.items ++ cases_open term.now parts way) }
{
    ahead.push(Open::Ready { row: Row::End })?;
    ahead.push(Open::Parts { number: parts, way })?;
    let term = term.share()?;
    let row = Row::Cases { term };
    ahead.push(Open::Ready { row })?;
    Ok(())
}

// Opens what parts of cases are made of.
fn open_parts(
    nodes: &[Node],
    number: usize,
    way: Way,
    ahead: &mut Vec<Open>,
) -> Result<(), AllocError>
    requires nodes { AreNodesFrom 0 nodes.now }
    requires within { number < length nodes.now }
    ensures { OnOk result (PartsOpen nodes.now way ahead.old.items ahead.new.items
        (rope_at nodes.now number)) }
{
    match &nodes[number] {
        Node::Part { first, others } => open_part(ahead, way, *first, *others),
        Node::Empty => Ok(()),
        Node::Link { .. } => Ok(()),
        Node::Behind { .. } => Ok(()),
        Node::Between { .. } => Ok(()),
        Node::NoPart => Ok(()),
        Node::Cases { .. } => Ok(()),
    }
}

// Opens a part, with the row before it, and the other parts.
fn open_part(ahead: &mut Vec<Open>, way: Way, first: usize, others: usize) -> Result<(), AllocError>
    ensures { OnOk result (ahead.new.items ≡ ahead.old.items ++ part_open first others way) }
{
    ahead.push(Open::Parts {
        number: others,
        way,
    })?;
    ahead.push(Open::Row { number: first, way })?;
    ahead.push(Open::Ready { row: Row::Case })?;
    Ok(())
}

// A way within another.
fn composed(own: Way, way: Way) -> Way
    ensures { result ≡ composed own way }
{
    match way {
        Way::Forth => own,
        Way::Back => other(own),
    }
}

fn other(way: Way) -> Way
    ensures { result ≡ other_way way }
{
    match way {
        Way::Forth => Way::Back,
        Way::Back => Way::Forth,
    }
}

// The row of a link in a way.
fn in_way(link: Row, way: Way) -> Row
    requires { IsLink link }
    ensures { IsRowOf link way result }
{
    match link {
        Row::Equation {
            number,
            way: own,
            path,
            terms,
        } => equation_row(number, own, path, terms, way),
        Row::Content {
            op,
            path,
            old,
            new,
            by,
        } => content_row(op, path, old, new, by, way),
        Row::Assumption {
            number,
            way: own,
            path,
        } => assumption_row(number, own, path, way),
        Row::Cases { .. } => unreachable!(),
        Row::Case => unreachable!(),
        Row::End => unreachable!(),
    }
}

fn equation_row(number: u32, own: Way, path: Path, terms: Vec<Term>, way: Way) -> Row
    ensures { IsRowOf (Equation number own path terms) way result }
{
    match way {
        Way::Forth => Row::Equation {
            number,
            way: own,
            path,
            terms,
        },
        Way::Back => Row::Equation {
            number,
            way: other(own),
            path,
            terms,
        },
    }
}

// Backwards the old and the new term change places.
fn content_row(op: u32, path: Path, old: Term, new: Term, by: Vec<Given>, way: Way) -> Row
    ensures { IsRowOf (Content op path old new by) way result }
{
    match way {
        Way::Forth => Row::Content {
            op,
            path,
            old,
            new,
            by,
        },
        Way::Back => Row::Content {
            op,
            path,
            old: new,
            new: old,
            by,
        },
    }
}

fn assumption_row(number: u64, own: Way, path: Path, way: Way) -> Row
    ensures { IsRowOf (Assumption number own path) way result }
{
    match way {
        Way::Forth => Row::Assumption {
            number,
            way: own,
            path,
        },
        Way::Back => Row::Assumption {
            number,
            way: other(own),
            path,
        },
    }
}

// The row of a link once more.
fn share_link(alloc: Global, link: &Row) -> Result<Row, AllocError>
    requires { IsLink link.now }
    ensures link { IfOk result IsLink }
    ensures same { IfOk result (λ r. piece_of r ≡ piece_of link.now) }
{
    match link {
        Row::Equation {
            number,
            way,
            path,
            terms,
        } => Ok(Row::Equation {
            number: *number,
            way: *way,
            path: share_path(alloc, path)?,
            terms: share_all(alloc, terms.as_slice())?,
        }),
        Row::Content {
            op,
            path,
            old,
            new,
            by,
        } => Ok(Row::Content {
            op: *op,
            path: share_path(alloc, path)?,
            old: old.share()?,
            new: new.share()?,
            by: share_given(alloc, by.as_slice())?,
        }),
        Row::Assumption { number, way, path } => Ok(Row::Assumption {
            number: *number,
            way: *way,
            path: share_path(alloc, path)?,
        }),
        Row::Cases { .. } => unreachable!(),
        Row::Case => unreachable!(),
        Row::End => unreachable!(),
    }
}

fn share_path(alloc: Global, path: &Path) -> Result<Path, AllocError>
    ensures { IfOk result (λ p. p.items ≡ path.now.items) }
{
    Ok(Path::from_slice(alloc, path.as_slice())?)
}

fn share_given(alloc: Global, given: &[Given]) -> Result<Vec<Given>, AllocError>
    ensures { IfOk result (λ v. map given_bound v.items ≡ map given_bound given.now) }
{
    let mut copy = Vec::with_capacity(alloc, given.len())?;
    for one in given {
        let term = one.term.share()?;
        copy.push(Given {
            number: one.number,
            sort: one.sort,
            term,
        })?;
    }
    Ok(copy)
}
