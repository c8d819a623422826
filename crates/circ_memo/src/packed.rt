//! What is kept of terms, by number, in 24 bytes each.
ghost use Rattle.std.specs.Prelude.{◌≡◌, ◌<◌, ◌≤◌, [], length};
ghost use Rattle.std.specs.Prelude.{IfSome, OnOk, OnErr, Some, map};
ghost use Rattle.circ_memo.specs.Keeping.{kept_at, Puts, HasSame};
ghost use Rattle.circ_memo.specs.Packing.{unpacked, number_in};

use crate::parts::Entry;
use std::alloc::{AllocError, Global};
use std::marker::Model;

// Stands for the number of a term where there is none.
const NONE: u32 = 4_294_967_295;

// More than any depth.
const DEPTHS: u32 = 1_024;

// An entry, or that there is none. `bounds` has the bound on depths, and 1,024 times that on sizes.
#[derive(Clone, Copy)]
struct Packed {
    count: u64,
    value: u32,
    ready: u32,
    next: u32,
    bounds: u32,
}

const ABSENT: Packed = Packed {
    count: 0,
    value: NONE,
    ready: 0,
    next: NONE,
    bounds: 0,
};

// What is kept of terms, by number.
#[derive(Drop)]
pub(crate) struct Entries {
    packed: Vec<Packed>,
}

impl Model for Entries {
    ghost use Rattle.std.specs.Prelude.{List, Option, map};
    ghost use Rattle.circ_memo.specs.declared.parts.Entry.{Entry as TheEntry};
    ghost use Rattle.circ_memo.specs.Packing.{unpacked, entries_code};

    ghost Value = { List (Option TheEntry) };

    ghost coded = { entries_code };

    ghost view = { λ a. map unpacked a.packed.items };
}

impl Entries {
    pub(crate) fn new(alloc: Global) -> Entries
        ensures { result ≡ [] }
    {
        Entries {
            packed: Vec::new(alloc),
        }
    }

    pub(crate) fn clear(&mut self)
        ensures { self.new ≡ [] }
    {
        self.packed.truncate(0);
    }

    // What is kept of a number.
    pub(crate) fn at(&self, place: usize) -> Option<Entry>
        ensures { result ≡ kept_at self.now place }
    {
        if place < self.packed.len() {
            self.packed[place].unpack()
        } else {
            None
        }
    }

    // Keeps this of a number, where so many numbers have room. If it runs out of memory all is as
    // before.
    pub(crate) fn put(&mut self, place: usize, entry: Entry, len: usize) -> Result<(), AllocError>
        requires { place < len }
        ensures put { OnOk result (Puts place entry self.old self.new) }
        ensures err { OnErr result (HasSame self.old self.new) }
    {
        let Some(packed) = pack(entry) else {
            return Err(AllocError);
        };
        make_room(&mut self.packed, len)?;
        self.packed[place] = packed;
        Ok(())
    }
}

// Makes room for what is kept of so many terms.
fn make_room(packed: &mut Vec<Packed>, len: usize) -> Result<(), AllocError>
    ensures same { HasSame (map unpacked packed.old.items) (map unpacked packed.new.items) }
    ensures room { OnOk result (len ≤ length packed.new.items) }
{
    for _ in packed.len()..len {
        packed.push(ABSENT)?;
    }
    Ok(())
}

impl Packed {
    fn unpack(self) -> Option<Entry>
        ensures { result ≡ unpacked self }
    {
        if self.value == NONE {
            return None;
        }
        Some(Entry {
            value: self.value,
            count: self.count,
            big: (self.bounds / DEPTHS) as u64,
            deep: (self.bounds % DEPTHS) as u64,
            ready: self.ready,
            next: some(self.next),
        })
    }
}

fn some(number: u32) -> Option<u32>
    ensures { result ≡ number_in number }
{
    if number == NONE { None } else { Some(number) }
}

// The entry in 24 bytes. None where it has no room, which no entry of a term needs: a number or a
// bound is too great.
fn pack(entry: Entry) -> Option<Packed>
    ensures { IfSome result (λ p. unpacked p ≡ Some entry) }
{
    if entry.value == NONE || entry.next == Some(NONE) {
        return None;
    }
    if entry.big >= 4_194_304 || entry.deep >= DEPTHS as u64 {
        return None;
    }
    Some(Packed {
        count: entry.count,
        value: entry.value,
        ready: entry.ready,
        next: entry.next.unwrap_or(NONE),
        bounds: entry.big as u32 * DEPTHS + entry.deep as u32,
    })
}
