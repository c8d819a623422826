//! What is written out so far: rows of pieces and parts of cases, the last one first.
ghost use Rattle.circ_written.specs.Nodes.{AreValues, AreValues-prop};

use crate::nodes::{Node, last_is_row, put_node, take_parts, take_row};
use crate::rows::Row;
use circ_term::Term;
use circ_theory::Way;
use std::alloc::{AllocError, Global};

/// The values of a run, the last one first.
#[derive(Drop)]
pub struct Values {
    pub(crate) nodes: Vec<Node>,
    pub(crate) stack: Vec<usize>,
    ghost whole: { AreValues nodes.items stack.items } by { AreValues-prop nodes.items stack.items },
}

impl Values {
    ghost use Rattle.std.specs.Prelude.{◌≡◌, ◌∷◌, ℕ, [], true, length, IfOk, OnOk};
    ghost use Rattle.circ_expansion.specs.Pieces.{no_piece, no_part};
    ghost use Rattle.circ_expansion.specs.Expand.{Expander, Background};
    ghost use Rattle.circ_expansion.specs.Machine.{In_row, In_parts};
    ghost use Rattle.circ_expansion.specs.Machine.{put_behind, put_between, add_part, end_split};
    ghost use Rattle.circ_written.specs.Nodes.{IsLink, piece_of, ends_in_row};
    ghost use Rattle.circ_written.specs.Values.{values_of, and_link, Makes};

    /// No values.
    pub fn new(alloc: Global) -> Values
        ensures { values_of result ≡ [] }
    {
        Values {
            nodes: Vec::new(alloc),
            stack: Vec::new(alloc),
        }
    }

    /// How many there are.
    pub fn len(&self) -> usize
        ensures { result ≡ length (values_of self.now) }
    {
        self.stack.len()
    }

    /// Whether there is one, and the last is a row.
    pub fn ends_in_row(&self) -> bool
        ensures { result ≡ ends_in_row (values_of self.now) }
    {
        last_is_row(self.nodes.as_slice(), self.stack.as_slice())
    }

    /// One more, a row of nothing.
    pub fn add_empty(&mut self) -> Result<(), AllocError>
        ensures { OnOk result (values_of self.new ≡ In_row no_piece ∷ values_of self.old) }
    {
        put_node(&mut self.nodes, &mut self.stack, Node::Empty)
    }

    /// One more, no parts of cases.
    pub fn add_no_part(&mut self) -> Result<(), AllocError>
        ensures { OnOk result (values_of self.new ≡ In_parts no_part ∷ values_of self.old) }
    {
        put_node(&mut self.nodes, &mut self.stack, Node::NoPart)
    }

    /// A link goes behind the last row. Whether there is one.
    pub fn add_row(&mut self, row: Row) -> Result<bool, AllocError>
        requires link { IsLink row }
        ensures last { IfOk result (λ done. done ≡ ends_in_row (values_of self.old)) }
        ensures added { IfOk result (λ done. done ≡ true →
            values_of self.new ≡ and_link (piece_of row) (values_of self.old)) }
    {
        let Some(first) = take_row(self.nodes.as_slice(), &mut self.stack) else {
            return Ok(false);
        };
        put_node(&mut self.nodes, &mut self.stack, Node::Link { first, row })?;
        Ok(true)
    }

    /// The last row, in a way, goes behind the one before it. Whether there are two.
    pub fn put_behind(&mut self, way: Way) -> Result<bool, AllocError>
        ensures { (run : Expander) (f : Background) (n : ℕ) → IfOk result (λ done.
            Makes done (values_of self.new) (put_behind run f way (values_of self.old) n) n) }
    {
        let Some(next) = take_row(self.nodes.as_slice(), &mut self.stack) else {
            return Ok(false);
        };
        let Some(first) = take_row(self.nodes.as_slice(), &mut self.stack) else {
            return Ok(false);
        };
        let node = Node::Behind { first, way, next };
        put_node(&mut self.nodes, &mut self.stack, node)?;
        Ok(true)
    }

    /// The last row goes between the two before it, of which the second is turned. Whether there
    /// are three.
    pub fn put_between(&mut self) -> Result<bool, AllocError>
        ensures { (run : Expander) (f : Background) (n : ℕ) → IfOk result (λ done.
            Makes done (values_of self.new) (put_between run f (values_of self.old) n) n) }
    {
        let Some(middle) = take_row(self.nodes.as_slice(), &mut self.stack) else {
            return Ok(false);
        };
        let Some(right) = take_row(self.nodes.as_slice(), &mut self.stack) else {
            return Ok(false);
        };
        let Some(left) = take_row(self.nodes.as_slice(), &mut self.stack) else {
            return Ok(false);
        };
        let node = Node::Between {
            left,
            middle,
            right,
        };
        put_node(&mut self.nodes, &mut self.stack, node)?;
        Ok(true)
    }

    /// The row before the last parts becomes the first of them. Whether there are both.
    pub fn add_part(&mut self) -> Result<bool, AllocError>
        ensures { (run : Expander) (f : Background) (n : ℕ) → IfOk result (λ done.
            Makes done (values_of self.new) (add_part run f (values_of self.old) n) n) }
    {
        let Some(others) = take_parts(self.nodes.as_slice(), &mut self.stack) else {
            return Ok(false);
        };
        let Some(first) = take_row(self.nodes.as_slice(), &mut self.stack) else {
            return Ok(false);
        };
        put_node(
            &mut self.nodes,
            &mut self.stack,
            Node::Part { first, others },
        )?;
        Ok(true)
    }

    /// The last parts become a row of cases of a term. Whether there are any.
    pub fn end_split(&mut self, term: Term) -> Result<bool, AllocError>
        ensures { (run : Expander) (f : Background) (n : ℕ) → IfOk result (λ done.
            Makes done (values_of self.new) (end_split run f term (values_of self.old) n) n) }
    {
        let Some(parts) = take_parts(self.nodes.as_slice(), &mut self.stack) else {
            return Ok(false);
        };
        put_node(
            &mut self.nodes,
            &mut self.stack,
            Node::Cases { term, parts },
        )?;
        Ok(true)
    }
}
