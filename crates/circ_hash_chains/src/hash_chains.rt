//! Numbers in chains by their keys.
ghost use Rattle.std.specs.Prelude.{◌≡◌, ◌+◌, ◌<◌, ◌≤◌, ◌-◌, ◌^◌, ◌++◌, ◌∷◌, ℕ};
ghost use Rattle.std.specs.Prelude.{[], length, take, Some, OnOk, OnErr};
ghost use Rattle.std.specs.Prelude.{vec_len, vec_capacity};
ghost use Rattle.std.specs.List.{slice_get};
ghost use Rattle.circ_hash_chains.specs.Keys.{IsLastBelow};
ghost use Rattle.circ_hash_chains.specs.Chains.{keys_of, chain_of, Leads, IsLinked, AreChains};

use std::alloc::{AllocError, Global};
use std::marker::Model;

// Where a chain ends. Another link is one more than a number.
const CHAIN_END: u32 = 0;

// The fewest chains.
const FEWEST: usize = 9;

// 2^32 over the golden ratio, as an odd number. A key times this, kept below 2^32, has upper bits
// that all bits of the key tell, and keys in a row come to lie far apart (Fibonacci hashing).
const SPREAD: u32 = 2_654_435_769;

// The most numbers, so that each link is a `u32`.
const MOST_NUMBERS: usize = 4_294_967_295;

// What is kept of a number.
#[derive(Clone, Copy)]
struct Link {
    // Leads to the next older number of the chain.
    next: u32,
    key: u32,
}

// For each chain its newest number, and for each number its link. Numbers of one chain may have
// different keys.
#[derive(Drop)]
struct Chains {
    links: Vec<Link>,
    heads: Vec<u32>,
}

/// Numbers 0, 1, 2 and so on, each with a key. It keeps 12 to 16 bytes for each.
#[derive(Drop)]
pub struct HashChains {
    alloc: Global,
    chains: Chains,
}

impl Model for HashChains {
    ghost use Rattle.std.specs.Prelude.{ℕ, List};
    ghost use Rattle.std.specs.Coded.{coded_list, coded_ℕ};

    ghost Value = { List ℕ };

    ghost coded = { coded_list coded_ℕ };

    ghost use Rattle.circ_hash_chains.specs.Chains.{keys_of, AreChains};

    ghost view = { λ a. keys_of a.chains.links.items };

    ghost invariant = { λ a. AreChains a.chains };
}

impl HashChains {
    /// No numbers.
    pub fn new(alloc: Global) -> HashChains
        ensures { result ≡ [] }
    {
        HashChains {
            alloc,
            chains: Chains {
                links: Vec::new(alloc),
                heads: Vec::new(alloc),
            },
        }
    }

    /// How many numbers there are.
    pub fn len(&self) -> usize
        ensures { result ≡ length self.now }
    {
        self.chains.links.len()
    }

    /// One number more, with this key. After want of memory, which comes too where there are
    /// 4,294,967,295 numbers, nothing has changed.
    pub fn push(&mut self, key: u32) -> Result<(), AllocError>
        ensures pushed { OnOk result (self.new ≡ self.old ++ key ∷ []) }
        ensures err { OnErr result (self.new ≡ self.old) }
    {
        if self.chains.links.len() >= MOST_NUMBERS {
            return Err(AllocError);
        }
        self.chains.make_room(self.alloc)?;
        self.chains.add(key);
        Ok(())
    }

    /// The first numbers alone are kept, as many as that. Costs as much as there are others.
    pub fn truncate(&mut self, count: usize)
        ensures { self.new ≡ take count self.old }
    {
        self.chains.cut(count);
    }

    /// The key of a number.
    pub fn key(&self, number: u32) -> u32
        requires { number < length self.now }
        ensures { slice_get self.now number ≡ Some result }
    {
        self.chains.links[number as usize].key
    }

    /// The last number with this key. Costs little if keys differ, whatever bits they differ in,
    /// unless they were chosen to meet in one chain.
    pub fn newest(&self, key: u32) -> Option<u32>
        ensures { IsLastBelow self.now key (length self.now) result }
    {
        if self.chains.heads.is_empty() {
            return None;
        }
        let chain = chain_of(key, self.chains.heads.len());
        self.chains.walk(self.chains.heads[chain], key)
    }

    /// The last number before this one with the same key.
    pub fn older(&self, number: u32) -> Option<u32>
        requires { number < length self.now }
        ensures { (k : ℕ) → slice_get self.now number ≡ Some k
            → IsLastBelow self.now k number result }
    {
        let link = self.chains.links[number as usize];
        self.chains.walk(link.next, link.key)
    }
}

impl Chains {
    // Makes room for one number more, and more chains than there are numbers. Twice as many are
    // made, so that this is seldom done.
    fn make_room(&mut self, alloc: Global) -> Result<(), AllocError>
        requires { AreChains self.old }
        ensures keys { keys_of self.new.links.items ≡ keys_of self.old.links.items }
        ensures chains { AreChains self.new }
        ensures wide { OnOk result (length self.new.links.items < length self.new.heads.items) }
        ensures room { OnOk result (vec_len self.new.links < vec_capacity self.new.links) }
    {
        self.links.reserve(1)?;
        let count = self.links.len();
        if count < self.heads.len() {
            return Ok(());
        }
        let mut heads = vec![in alloc; CHAIN_END; (2 * count).max(FEWEST)]?;
        enter_all(self.links.as_mut_slice(), heads.as_mut_slice());
        self.heads = heads;
        Ok(())
    }

    // A number more, with this key.
    fn add(&mut self, key: u32)
        requires chains { AreChains self.old }
        requires few { length self.old.links.items < MOST_NUMBERS }
        requires wide { length self.old.links.items < length self.old.heads.items }
        requires room { vec_len self.old.links < vec_capacity self.old.links }
        ensures keys { keys_of self.new.links.items ≡ keys_of self.old.links.items ++ key ∷ [] }
        ensures chains { AreChains self.new }
    {
        let place = self.links.len();
        self.links.push_reserved(Link {
            next: CHAIN_END,
            key,
        });
        enter(self.links.as_mut_slice(), self.heads.as_mut_slice(), place);
    }

    // The first numbers alone are kept.
    fn cut(&mut self, count: usize)
        requires { AreChains self.old }
        ensures keys { keys_of self.new.links.items ≡ take count (keys_of self.old.links.items) }
        ensures chains { AreChains self.new }
    {
        while self.links.len() > count {
            self.drop_last();
        }
    }

    // The last number goes. It is the newest of its chain.
    fn drop_last(&mut self)
        requires chains { AreChains self.old }
        requires some { 0 < length self.old.links.items }
        ensures keys { keys_of self.new.links.items ≡
            take (length self.old.links.items - 1) (keys_of self.old.links.items) }
        ensures fewer { length self.new.links.items + 1 ≡ length self.old.links.items }
        ensures chains { AreChains self.new }
    {
        if let Some(link) = self.links.pop() {
            let chain = chain_of(link.key, self.heads.len());
            self.heads[chain] = link.next;
        }
    }

    // The last number of a link's chain with this key, from the number that the link leads to.
    fn walk(&self, start: u32, key: u32) -> Option<u32>
        requires chains { AreChains self.now }
        requires start { Leads (keys_of self.now.links.items) (length self.now.heads.items)
            (chain_of key (length self.now.heads.items)) (length self.now.links.items) start }
        ensures { IsLastBelow (keys_of self.now.links.items) key start result }
    {
        let mut link = start;
        while link != CHAIN_END {
            let number = link - 1;
            let Link { next, key: other } = self.links[number as usize];
            if other == key {
                return Some(number);
            }
            link = next;
        }
        None
    }
}

// The chain of a key, where there are so many: as large a part of all chains as the key, spread, is
// of 2^32. So there is no division, and any width will do (Lemire's range reduction).
#[tactic(auto, unfolding(crate::specs::Chains::chain_of))]
fn chain_of(key: u32, width: usize) -> usize
    requires { 0 < width }
    ensures is { result ≡ chain_of key width }
    ensures within { result < width }
{
    let spread = key.wrapping_mul(SPREAD);
    ((spread as u128 * width as u128) >> 32) as usize
}

// Puts all numbers into chains that are empty.
fn enter_all(links: &mut [Link], heads: &mut [u32])
    requires few { length links.old ≤ MOST_NUMBERS }
    requires wide { 0 < length heads.old }
    requires linked { IsLinked (keys_of links.old) links.old heads.old 0 }
    ensures keys { keys_of links.new ≡ keys_of links.old }
    ensures linked { IsLinked (keys_of links.new) links.new heads.new (length links.new) }
    ensures wide { length heads.new ≡ length heads.old }
{
    for number in 0..links.len() {
        enter(links, heads, number);
    }
}

// Puts a number into the chain of its key, where it is the newest.
fn enter(links: &mut [Link], heads: &mut [u32], number: usize)
    requires few { length links.old ≤ MOST_NUMBERS }
    requires number { number < length links.old }
    requires wide { 0 < length heads.old }
    requires linked { IsLinked (keys_of links.old) links.old heads.old number }
    ensures keys { keys_of links.new ≡ keys_of links.old }
    ensures linked { IsLinked (keys_of links.new) links.new heads.new (number + 1) }
    ensures wide { length heads.new ≡ length heads.old }
{
    let key = links[number].key;
    let chain = chain_of(key, heads.len());
    links[number] = Link {
        next: heads[chain],
        key,
    };
    heads[chain] = number as u32 + 1;
}
