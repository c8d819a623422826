//! The places that a set must have.
ghost use Rattle.std.specs.Prelude.{◌≡◌, ◌↔◌, List, [], OnOk, IfOk, IsTrue};
ghost use Rattle.std.specs.List.{Contains};
ghost use Rattle.circ_special.specs.Guarded.{Guarded};
ghost use Rattle.circ_special.specs.Special.{place};
ghost use Rattle.circ_special.specs.declared.place.Place.{Place as ThePlace};
ghost use Rattle.circ_needs.specs.Needs.{HasAll, NoneLost};
ghost use Rattle.circ_needs.specs.Places.{places_of};
ghost use Rattle.circ_needs.specs.Owing.{Passes};

use crate::observers::Observers;
use crate::walking::{Asked, room};
use circ_special::{Gamma, is_variable};
use circ_term::Term;
use indexmap::IndexSet;
use std::alloc::{AllocError, Global};
use std::marker::Model;

// An argument of an operator.
#[derive(Clone, Copy, PartialEq, Eq, Hash)]
struct Need {
    op: u32,
    arg: u16,
}

/// Places that a set must have.
#[derive(Drop)]
pub struct Needs {
    needs: IndexSet<Need>,
}

impl Model for Needs {
    ghost use Rattle.std.specs.Prelude.{List, map};
    ghost use Rattle.std.specs.Coded.{coded_list};
    ghost use Rattle.circ_special.specs.declared.place.Place.{Place as ThePlace};
    ghost use Rattle.circ_special.specs.Places.{place_code};
    ghost use Rattle.circ_special.specs.Special.{place};

    ghost Value = { List ThePlace };

    ghost coded = { coded_list place_code };

    ghost view = { λ a. map (λ n. place n.op n.arg) a.needs.keys };
}

impl Needs {
    /// No places.
    pub fn new(alloc: Global) -> Needs
        ensures { result ≡ [] }
    {
        Needs {
            needs: IndexSet::new(alloc),
        }
    }

    /// Adds the places that a set must have to guard the variable in the term. The term is walked
    /// once. At an occurrence those derivatives are tried that have the operator directly above it
    /// directly above their holes.
    pub fn add(
        &mut self,
        observers: &Observers<'_>,
        term: &Term,
        id: u32,
        sort: u32,
    ) -> Result<(), AllocError>
        ensures added { OnOk result ((G : List ThePlace) → HasAll G self.new ↔
            (HasAll G self.old × Guarded observers.now G term.now id sort)) }
        ensures kept { NoneLost self.old self.new }
    {
        term.known();
        if is_variable(term, id, sort) {
            return Ok(());
        }
        let asked = Asked {
            observers,
            root: term,
            id,
            sort,
        };
        let mut path = room();
        let _ = asked.below(term, &mut path, 0, self)?;
        Ok(())
    }

    /// Whether the set has all of them.
    pub fn are_in(&self, gamma: &Gamma) -> bool
        ensures { IsTrue result ↔ HasAll gamma.now self.now }
    {
        are_in(self.needs.as_slice(), gamma)
    }

    // What is owed of a path of this length, when so much is owed of the path with one step more,
    // to this argument of this operator.
    pub(crate) fn pass(
        &mut self,
        op: u32,
        arg: u16,
        steps: usize,
        len: usize,
    ) -> Result<usize, AllocError>
        ensures passes { IfOk result (Passes (place op arg) steps len self.old self.new) }
        ensures kept { NoneLost self.old self.new }
    {
        if steps <= len {
            return Ok(steps);
        }
        self.put(op, arg)?;
        Ok(len)
    }

    fn put(&mut self, op: u32, arg: u16) -> Result<(), AllocError>
        ensures put { OnOk result ((G : List ThePlace) → HasAll G self.new ↔
            (HasAll G self.old × Contains G (place op arg))) }
        ensures kept { NoneLost self.old self.new }
    {
        self.needs.insert(Need { op, arg })?;
        Ok(())
    }
}

fn are_in(needs: &[Need], gamma: &Gamma) -> bool
    ensures { IsTrue result ↔ HasAll gamma.now (places_of needs.now) }
{
    for need in needs {
        if !gamma.has(need.op, need.arg) {
            return false;
        }
    }
    true
}
