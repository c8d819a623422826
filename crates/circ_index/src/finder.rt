//! The places of patterns, found by keys, and where many have one key, by paths.
ghost use Rattle.std.specs.Prelude.{◌≡◌, ℕ, ◌+◌, ◌<◌, ◌^◌, [], ◌∷◌, ◌++◌, List, length, true};
ghost use Rattle.std.specs.Prelude.{IfOk, OnOk, OnErr};
ghost use Rattle.circ_term.specs.Tree.{Tree};
ghost use Rattle.circ_index.specs.Finding.{both_ways};
ghost use Rattle.circ_index.specs.Indexed.{IsSeat, HaveSeats, HasLefts, HasPairs};
ghost use Rattle.circ_index.specs.Keys.{left_key, pair_key};
ghost use Rattle.circ_index.specs.Linked.{AreAhead};
ghost use Rattle.circ_index.specs.Paths.{Grows, key_of_left, key_of_pair};
ghost use Rattle.circ_index.specs.Walking.{along, IsOnWay, IsNextOn, term_seats, pair_seats};

use crate::keys::{left_key, pair_key};
use crate::paths::{Leaves, PathFault, Paths};
use crate::rows::{Ahead, END, Rows, least};
use crate::walk::Walk;
use circ_term::Term;
use std::alloc::{AllocError, Global};

/// Finds the places of patterns that can become a term: left sides, or pairs, which have two places
/// each.
/// Each place stands in the row of its key. The first places of a row have their keys as their
/// seats too; those behind them have the leaves of their paths, so that in a long row few places
/// are looked at. If memory ran out for a seat, the seats are not whole, and places are found by
/// keys alone.
#[derive(Drop)]
pub struct Finder {
    rows: Rows,
    pub(crate) paths: Paths,
    seats: Rows,
    whole: bool,
}

impl Finder {
    /// No patterns.
    pub fn new(alloc: Global) -> Finder
        ensures lefts { HasLefts result [] }
        ensures pairs { HasPairs result [] }
    {
        Finder {
            rows: Rows::new(alloc),
            paths: Paths::new(alloc),
            seats: Rows::new(alloc),
            whole: true,
        }
    }

    /// Puts a left side last. If it runs out of memory they are as before.
    pub fn add_left(&mut self, left: &Term) -> Result<(), AllocError>
        requires { (lefts : List Tree) × HasLefts self.old lefts × (length lefts + 1 < 2 ^ 32) }
        ensures added { (lefts : List Tree) → HasLefts self.old lefts
            → OnOk result (HasLefts self.new (lefts ++ left.now ∷ [])) }
        ensures err { (lefts : List Tree) → HasLefts self.old lefts
            → OnErr result (HasLefts self.new lefts) }
    {
        self.rows.add(&[left_key(left)])?;
        self.whole = seat_left(
            &self.rows,
            &mut self.paths,
            &mut self.seats,
            self.whole,
            left,
        );
        Ok(())
    }

    /// Puts a pair last, both ways. If it runs out of memory they are as before.
    pub fn add_pair(&mut self, left: &Term, right: &Term) -> Result<(), AllocError>
        requires { (pairs : List (Tree × Tree)) × HasPairs self.old pairs
            × (length pairs + 1 < 2 ^ 31) }
        ensures added { (pairs : List (Tree × Tree)) → HasPairs self.old pairs
            → OnOk result (HasPairs self.new (pairs ++ (left.now, right.now) ∷ [])) }
        ensures err { (pairs : List (Tree × Tree)) → HasPairs self.old pairs
            → OnErr result (HasPairs self.new pairs) }
    {
        let keys = [pair_key(left, right), pair_key(right, left)];
        self.rows.add(&keys)?;
        self.whole = seat_pair(
            &self.rows,
            &mut self.paths,
            &mut self.seats,
            self.whole,
            left,
            right,
        );
        Ok(())
    }

    /// A walk through the places at or above `from`, by keys.
    pub fn start(&self, keys: &[u64], from: u32) -> Result<Walk, AllocError>
        ensures { (seats : List ℕ) → IfOk result (IsOnWay self.now keys.now seats from) }
    {
        let ahead = self.rows.ahead(keys, from)?;
        Ok(Walk::by_keys(ahead))
    }

    /// The next place at or above `from` whose left side may become the term; past all places if
    /// there is none.
    pub fn next_left(
        &self,
        term: &Term,
        keys: &[u64],
        from: u32,
        walk: &mut Walk,
    ) -> Result<u32, AllocError>
        requires { IsOnWay self.now keys.now (term_seats self.now keys.now term.now) from
            walk.old }
        ensures { IfOk result (IsNextOn self.now keys.now (term_seats self.now keys.now term.now)
            from walk.new) }
    {
        let place = least(walk.ahead.as_slice());
        if place == END {
            return Ok(place);
        }
        if !walk.tires() {
            return Ok(place);
        }
        match self.paths.leaves_of_term(term) {
            Ok(leaves) => self.turn(leaves, keys, from, walk),
            Err(PathFault::TooMany) => Ok(place),
            Err(PathFault::Memory) => Err(AllocError),
        }
    }

    /// The next place at or above `from` whose pair may become the two terms; past all places if
    /// there is none.
    pub fn next_pair(
        &self,
        a: &Term,
        b: &Term,
        keys: &[u64],
        from: u32,
        walk: &mut Walk,
    ) -> Result<u32, AllocError>
        requires { IsOnWay self.now keys.now (pair_seats self.now keys.now a.now b.now) from
            walk.old }
        ensures { IfOk result (IsNextOn self.now keys.now
            (pair_seats self.now keys.now a.now b.now) from walk.new) }
    {
        let place = least(walk.ahead.as_slice());
        if place == END {
            return Ok(place);
        }
        if !walk.tires() {
            return Ok(place);
        }
        match self.paths.leaves_of_two(a, b) {
            Ok(leaves) => self.turn(leaves, keys, from, walk),
            Err(PathFault::TooMany) => Ok(place),
            Err(PathFault::Memory) => Err(AllocError),
        }
    }

    // Goes on by seats, where these are whole. The next place.
    pub(crate) fn turn(
        &self,
        leaves: Leaves,
        keys: &[u64],
        from: u32,
        walk: &mut Walk,
    ) -> Result<u32, AllocError>
        requires { IsOnWay self.now keys.now (leaves.items ++ keys.now) from walk.old }
        ensures { IfOk result (IsNextOn self.now keys.now (leaves.items ++ keys.now) from
            walk.new) }
    {
        if self.whole {
            walk.ahead = self.ahead_by_seats(leaves, keys, from)?;
            walk.by_seat = true;
        }
        Ok(least(walk.ahead.as_slice()))
    }

    // The first places at or above `from` that have these leaves or keys as their seats.
    fn ahead_by_seats(&self, leaves: Leaves, keys: &[u64], from: u32) -> Result<Ahead, AllocError>
        ensures { IfOk result (λ v. AreAhead self.now.seats (leaves.items ++ keys.now) from
            v.items) }
    {
        let mut seats = leaves;
        seats.extend_from_slice(keys)?;
        self.seats.ahead(seats.as_slice(), from)
    }

    /// From a place that may be the next to those behind it.
    pub fn pass(&self, place: u32, walk: &mut Walk)
        requires { place < length (along walk.old.by_seat self.now).keys }
        ensures { (keys seats : List ℕ) → IsOnWay self.now keys seats place walk.old
            → IsOnWay self.now keys seats (place + 1) walk.new }
    {
        if walk.by_seat {
            self.seats.pass(place, walk.ahead.as_mut_slice());
        } else {
            self.rows.pass(place, walk.ahead.as_mut_slice());
        }
    }
}

// Puts the seat of a left side last. Whether the seats are whole then.
fn seat_left(rows: &Rows, paths: &mut Paths, seats: &mut Rows, whole: bool, left: &Term) -> bool
    requires { whole ≡ true → length seats.old.keys + 1 < 2 ^ 32 }
    ensures { (before : List Tree)
        → HaveSeats whole (key_of_left paths.old) left_key before seats.old
        → HaveSeats result (key_of_left paths.new) left_key (before ++ left.now ∷ []) seats.new }
{
    if !whole {
        return false;
    }
    let seat = left_seat(rows, paths, left);
    match seats.add(&[seat]) {
        Ok(()) => true,
        Err(_) => false,
    }
}

// The seat of a left side: its leaf, if the row of its key is long and there is memory for one.
fn left_seat(rows: &Rows, paths: &mut Paths, left: &Term) -> u64
    ensures grows { Grows paths.old paths.new }
    ensures seat { IsSeat (key_of_left paths.new left.now) (left_key left.now) result }
{
    let key = left_key(left);
    if !rows.is_long(key) {
        return key;
    }
    match paths.add_left(left) {
        Ok(leaf) => leaf,
        Err(_) => key,
    }
}

// Puts the seats of a pair last, both ways. Whether the seats are whole then.
fn seat_pair(
    rows: &Rows,
    paths: &mut Paths,
    seats: &mut Rows,
    whole: bool,
    left: &Term,
    right: &Term,
) -> bool
    requires { whole ≡ true → length seats.old.keys + 2 < 2 ^ 32 }
    ensures { (before : List (Tree × Tree))
        → HaveSeats whole (key_of_pair paths.old) pair_key (both_ways before) seats.old
        → HaveSeats result (key_of_pair paths.new) pair_key
        (both_ways (before ++ (left.now, right.now) ∷ [])) seats.new }
{
    if !whole {
        return false;
    }
    let seat = pair_seat(rows, paths, left, right);
    let turned = pair_seat(rows, paths, right, left);
    match seats.add(&[seat, turned]) {
        Ok(()) => true,
        Err(_) => false,
    }
}

// The seat of a pair as it stands: its leaf, if the row of its key is long and there is memory for
// one.
fn pair_seat(rows: &Rows, paths: &mut Paths, left: &Term, right: &Term) -> u64
    ensures grows { Grows paths.old paths.new }
    ensures seat { IsSeat (key_of_pair paths.new (left.now, right.now))
        (pair_key (left.now, right.now)) result }
{
    let key = pair_key(left, right);
    if !rows.is_long(key) {
        return key;
    }
    match paths.add_pair(left, right) {
        Ok(leaf) => leaf,
        Err(_) => key,
    }
}
