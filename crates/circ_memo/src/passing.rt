//! An application whose arguments are normalised from the left.
ghost use Rattle.std.specs.Prelude.{◌≡◌, ◌≤◌, ◌<◌, ◌^◌, ◌+◌, ℕ, List, length};
ghost use Rattle.std.specs.Prelude.{Option, IfOk, IfSome, Some, slice_set};
ghost use Rattle.std.specs.List.{AllByRecursion, slice_get};
ghost use Rattle.circ_term.specs.Tree.{Tree, size_of};
ghost use Rattle.circ_rewrite.specs.Replacement.{Replacement};
ghost use Rattle.circ_term.specs.Growing.{Grows};
ghost use Rattle.circ_nodes.specs.Named.{IsNamed};
ghost use Rattle.circ_memo.specs.declared.parts.Entry.{Entry as TheEntry};
ghost use Rattle.circ_memo.specs.Keeping.{IsForm, IsInBounds, HasKeptArgs, IsWayKept};
ghost use Rattle.circ_memo.specs.Settling.{IsWithin, IsPassing, HasPassed, Begins};
ghost use Rattle.circ_memo.specs.Settling.{FindsWay, Stops, room};
ghost use Rattle.circ_memo.specs.declared.parts.Stop.TheVariants.{Outgrows};

use crate::advancing::rewrite_fault;
use crate::parts::{Bounds, Entry, Passing, Stop, Way};
use circ_nodes::{Nodes, Numbers, Shape};
use circ_term::{MOST_ARGS, MOST_DEPTH, MOST_NODES};
use std::alloc::{AllocError, Global};

impl Passing {
    // The term of a number, with no argument passed. None where it is a variable.
    pub(crate) fn begin(
        alloc: Global,
        nodes: &Nodes,
        number: u32,
    ) -> Result<Option<Passing>, AllocError>
        requires { number < length nodes.now }
        ensures begins { (due : Tree → Option Replacement) (b : Bounds) (t : Tree)
            → IsNamed nodes.now number t → IsWithin b t
            → IfOk result (Begins due nodes.now b t) }
        ensures kept { (es : List (Option TheEntry)) (t : Tree) → IsNamed nodes.now number t
            → IfOk result (λ o. IfSome o (HasPassed nodes.now es t 0)) }
    {
        let Shape::Application { op, sort, args } = nodes.shape(number) else {
            return Ok(None);
        };
        nodes.known_at(number);
        Ok(Some(Passing {
            op,
            sort,
            args: Numbers::from_slice(alloc, args)?,
            size: nodes.size(number),
            depth: nodes.depth(number),
            count: 0,
            big: 0,
            deep: 0,
        }))
    }

    // The argument that stands at a place.
    pub(crate) fn arg(&self, place: usize) -> u32
        requires { place < length self.now.args.items }
        ensures { slice_get self.now.args.items place ≡ Some result }
    {
        self.args[place]
    }

    // The bounds that the others leave to an argument of this size.
    pub(crate) fn room(&self, bounds: Bounds, own: u64) -> Bounds
        requires big { self.now.size ≤ bounds.big }
        requires deep { 0 < bounds.deep }
        requires small { bounds.big + own < 2 ^ 64 }
        ensures { result ≡ room self.now bounds own }
    {
        Bounds {
            big: bounds.big - self.size + own,
            deep: bounds.deep - 1,
        }
    }

    // Puts the normal form of an argument in its place.
    pub(crate) fn pass(&mut self, nodes: &Nodes, place: usize, own: u64, entry: Entry)
        requires place { place < length self.old.args.items }
        requires value { entry.value < length nodes.now }
        requires own { own ≤ self.old.size }
        requires size { self.old.size ≤ MOST_NODES }
        requires big { entry.big ≤ MOST_NODES }
        requires deep { entry.deep ≤ MOST_DEPTH }
        requires count { self.old.count + entry.count < 2 ^ 64 }
        ensures passes { (due : Tree → Option Replacement) (b : Bounds) (t a : Tree) (n : ℕ)
            → IsPassing due nodes.now b t place self.old
            → slice_get self.old.args.items place ≡ Some n → IsNamed nodes.now n a
            → own ≡ size_of a → IsForm due nodes.now a entry
            → IsInBounds (room self.old b own) entry
            → IsPassing due nodes.now b t (place + 1) self.new }
        ensures count { self.new.count ≡ self.old.count + entry.count }
        ensures len { length self.new.args.items ≡ length self.old.args.items }
        ensures rest { (j : ℕ) → place < j
            → slice_get self.new.args.items j ≡ slice_get self.old.args.items j }
    {
        if entry.count == 0 {
            return;
        }
        nodes.known_at(entry.value);
        let rest = self.size - own;
        self.size = rest + nodes.size(entry.value);
        put(&mut self.args, place, entry.value);
        self.count += entry.count;
        self.big = self.big.max(rest + entry.big);
        self.deep = self.deep.max(self.depth).max(entry.deep + 1);
    }

    // The way, once all arguments are normal.
    pub(crate) fn finish(self, nodes: &mut Nodes, number: u32) -> Result<Way, Stop>
        requires few { length self.args.items ≤ MOST_ARGS }
        requires there { AllByRecursion (λ n. n < length nodes.old) self.args.items }
        ensures grows { Grows nodes.old nodes.new }
        ensures finds { (due : Tree → Option Replacement) (b : Bounds) (t : Tree) (k left : ℕ)
            → IsNamed nodes.old number t
            → IsPassing due nodes.old b t (length self.args.items) self
            → left + self.count ≡ k
            → FindsWay due nodes.new b k left t result }
        ensures kept { (es : List (Option TheEntry)) (t : Tree)
            → HasKeptArgs nodes.old es t self.count
            → IfOk result (λ w. IsWayKept nodes.new es number t w.ready w.count) }
    {
        let Passing {
            op,
            sort,
            args,
            count,
            big,
            deep,
            ..
        } = self;
        let ready = if count == 0 {
            number
        } else {
            match nodes.app(op, sort, args) {
                Ok(ready) => ready,
                Err(fault) => return Err(Stop::Fault(rewrite_fault(fault))),
            }
        };
        Ok(Way {
            ready,
            count,
            big,
            deep,
        })
    }

    // Why the work stops where an argument outgrows its bounds by the term of this number.
    pub(crate) fn outgrow(&self, alloc: Global, nodes: &mut Nodes, place: usize, new: u32) -> Stop
        requires few { length self.now.args.items ≤ MOST_ARGS }
        requires there { AllByRecursion (λ n. n < length nodes.old) self.now.args.items }
        requires new { new < length nodes.old }
        requires place { place < length self.now.args.items }
        ensures grows { Grows nodes.old nodes.new }
        ensures stops { (due : Tree → Option Replacement) (b : Bounds) (t a : Tree)
            (n k left : ℕ)
            → IsPassing due nodes.old b t place self.now
            → slice_get self.now.args.items place ≡ Some n → IsNamed nodes.old n a
            → Stops due nodes.old (room self.now b (size_of a)) k left a (Outgrows new)
            → Stops due nodes.new b (k + self.now.count) left t result }
    {
        let mut args = match Numbers::from_slice(alloc, self.args.as_slice()) {
            Ok(args) => args,
            Err(fault) => return Stop::from(fault),
        };
        put(&mut args, place, new);
        match nodes.app(self.op, self.sort, args) {
            Ok(term) => Stop::Outgrows(term),
            Err(fault) => Stop::Fault(rewrite_fault(fault)),
        }
    }
}

fn put(args: &mut Numbers, place: usize, new: u32)
    requires { place < length args.old.items }
    ensures { args.new.items ≡ slice_set args.old.items place new }
{
    args[place] = new;
}
