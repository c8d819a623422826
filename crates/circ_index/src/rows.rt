//! Places in rows by their keys.
ghost use Rattle.std.specs.Prelude.{◌≡◌, ◌+◌, ◌%◌, ◌≤◌, ◌<◌, ◌^◌};
ghost use Rattle.std.specs.Prelude.{ℕ, List, ◌++◌, length, slice_index, IfOk, OnOk, OnErr};
ghost use Rattle.circ_index.specs.Linked.{IsLinked, IsNext, AreAhead, IsLeast};

use smallvec::SmallVec;
use std::alloc::{AllocError, Global};
use std::marker::Model;

// Past all places.
pub(crate) const END: u32 = 4_294_967_295;

// So many places of a row are few.
const FEW: u32 = 4;

// Next places in some rows. Few need no memory of their own.
pub(crate) type Ahead = SmallVec<u32, 8>;

// Where a row begins and where it ends.
#[derive(Clone, Copy)]
struct Row {
    first: u32,
    last: u32,
}

const EMPTY: Row = Row {
    first: END,
    last: END,
};

/// Places, numbered from 0, each with a key, found by their keys. Contracts see the keys in order,
/// and how many rows there are.
/// All places with one key stand in one row, in increasing order, and `next` has for each the one
/// behind it. That a row has places of several keys does no harm. There are never fewer rows than
/// places.
#[derive(Drop)]
pub struct Rows {
    alloc: Global,
    keys: Vec<u64>,
    next: Vec<u32>,
    rows: Vec<Row>,
}

impl Model for Rows {
    ghost use Rattle.std.specs.Prelude.{length};
    ghost use Rattle.circ_index.specs.Linked.{Keyed, keyed_code, AreRows};

    ghost Value = { Keyed };

    ghost coded = { keyed_code };

    ghost view = { λ a. record { width = length a.rows.items; keys = a.keys.items } };

    ghost invariant = { λ a. AreRows a.keys.items a.next.items a.rows.items };
}

impl Rows {
    /// No places.
    pub fn new(alloc: Global) -> Rows
        ensures { length result.keys ≡ 0 }
    {
        Rows {
            alloc,
            keys: Vec::new(alloc),
            next: Vec::new(alloc),
            rows: Vec::new(alloc),
        }
    }

    /// Puts places with these keys behind the others. After want of memory there are none of them.
    pub fn add(&mut self, keys: &[u64]) -> Result<(), AllocError>
        requires { length self.old.keys + length keys.now < 2 ^ 32 }
        ensures added { OnOk result (self.new.keys ≡ self.old.keys ++ keys.now) }
        ensures err { OnErr result (self.new.keys ≡ self.old.keys) }
    {
        self.widen(keys.len())?;
        let before = self.keys.len();
        self.next.resize(before + keys.len(), END)?;
        self.keys.extend_from_slice(keys)?;
        link_from(self.keys.as_slice(), &mut self.next, &mut self.rows, before);
        Ok(())
    }

    // Makes rows for so many more places. There are made twice as many as are needed, so that each
    // place is linked anew only a few times.
    fn widen(&mut self, more: usize) -> Result<(), AllocError>
        requires { length self.old.keys + more < 2 ^ 32 }
        ensures keys { self.new.keys ≡ self.old.keys }
        ensures wide { OnOk result (length self.old.keys + more ≤ self.new.width) }
    {
        let all = self.keys.len() + more;
        if all <= self.rows.len() {
            return Ok(());
        }
        self.rows = vec![in self.alloc; EMPTY; 2 * all]?;
        link_from(self.keys.as_slice(), &mut self.next, &mut self.rows, 0);
        Ok(())
    }

    /// The first places at or above `from` in the rows of these keys.
    pub fn start(&self, keys: &[u64], from: u32, ahead: &mut [u32])
        requires { length ahead.old ≡ length keys.now }
        ensures { AreAhead self.now keys.now from ahead.new }
    {
        for i in 0..ahead.len() {
            ahead[i] = self.first(keys[i], from);
        }
    }

    // The same, for as many rows as there are keys.
    pub(crate) fn ahead(&self, keys: &[u64], from: u32) -> Result<Ahead, AllocError>
        ensures { IfOk result (λ v. AreAhead self.now keys.now from v.items) }
    {
        let mut ahead = Ahead::from_elem(self.alloc, END, keys.len())?;
        self.start(keys, from, ahead.as_mut_slice());
        Ok(ahead)
    }

    /// The places behind one of them.
    pub fn pass(&self, place: u32, ahead: &mut [u32])
        requires { place < length self.now.keys }
        ensures { (keys : List ℕ) → AreAhead self.now keys place ahead.old
            → AreAhead self.now keys (place + 1) ahead.new }
    {
        for here in ahead {
            if *here == place {
                *here = self.next[place as usize];
            }
        }
    }

    // The first place at or above `from` in the row of a key.
    fn first(&self, key: u64, from: u32) -> u32
        ensures { IsNext self.now.keys self.now.width (length self.now.keys)
            (key % self.now.width) from result }
    {
        if self.rows.is_empty() {
            return END;
        }
        let mut here = self.rows[(key % self.rows.len() as u64) as usize].first;
        while here < from {
            here = self.next[here as usize];
        }
        here
    }

    // The place behind another in its row.
    fn behind(&self, place: u32) -> u32
        requires { place < length self.now.keys }
        ensures { IsNext self.now.keys self.now.width (length self.now.keys)
            (slice_index self.now.keys place % self.now.width) (place + 1) result }
    {
        self.next[place as usize]
    }

    // Whether more than a few places stand in the row of a key.
    pub(crate) fn is_long(&self, key: u64) -> bool {
        let mut place = self.first(key, 0);
        let mut count = 0;
        while count < FEW && place < END {
            place = self.behind(place);
            count += 1;
        }
        place < END
    }
}

/// The least of these places, past all places where there is none.
pub fn least(ahead: &[u32]) -> u32
    ensures { IsLeast ahead.now result }
{
    let mut least = END;
    for here in ahead {
        least = least.min(*here);
    }
    least
}

// Links the places from a number on into their rows.
fn link_from(keys: &[u64], next: &mut [u32], rows: &mut [Row], from: usize)
    requires from { from ≤ length keys.now }
    requires few { length keys.now < 2 ^ 32 }
    requires long { length keys.now ≤ length next.old }
    requires wide { length keys.now ≤ length rows.old }
    requires linked { IsLinked keys.now next.old rows.old from }
    ensures linked { IsLinked keys.now next.new rows.new (length keys.now) }
    ensures long { length next.new ≡ length next.old }
    ensures wide { length rows.new ≡ length rows.old }
{
    for place in from..keys.len() {
        link(keys, next, rows, place);
    }
}

// Links a place behind the last of its row.
fn link(keys: &[u64], next: &mut [u32], rows: &mut [Row], place: usize)
    requires place { place < length keys.now }
    requires few { length keys.now < 2 ^ 32 }
    requires long { length keys.now ≤ length next.old }
    requires wide { length keys.now ≤ length rows.old }
    requires linked { IsLinked keys.now next.old rows.old place }
    ensures linked { IsLinked keys.now next.new rows.new (place + 1) }
    ensures long { length next.new ≡ length next.old }
    ensures wide { length rows.new ≡ length rows.old }
{
    let row = (keys[place] % rows.len() as u64) as usize;
    let Row { first, last } = rows[row];
    if last < END {
        next[last as usize] = place as u32;
    }
    next[place] = END;
    rows[row] = Row {
        first: first.min(place as u32),
        last: place as u32,
    };
}
