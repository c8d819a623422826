//! Theories: sorts, operators, equations, derivatives and case lists, each kind numbered
//! from 0 in order of declaration.
ghost use Rattle.std.specs.Prelude.{◌≡◌, [], IfOk};
ghost use Rattle.circ_theory.specs.WellFormed.{IsWellFormed};
ghost use Rattle.circ_theory.specs.Names.{AreDifferent, names_of};
ghost use Rattle.circ_theory.specs.Operators.{AreDifferentOperators};

mod adding;
mod faults;
mod reading;
mod terms;

use crate::overloads::Overloads;
use crate::parts::OpDecl;
use circ_form::Text;
use circ_pairs::Equation;
use circ_term::Term;
use indexmap::{IndexMap, IndexSet};
use std::alloc::{AllocError, Global};
use std::marker::Model;

// By what operators are told apart: the text of the form, and the argument sorts.
#[derive(PartialEq, Eq, Hash, Drop)]
struct OpKey {
    form: Vec<u8>,
    args: Vec<u32>,
}

// An equation, with the sorts of its variables by number, and whether it is a rewrite rule.
#[derive(Drop)]
struct Listed {
    equation: Equation,
    sorts: Vec<u32>,
    rule: bool,
}

// A derivative, with the sort of its hole and the sorts of its parameters by number.
#[derive(Drop)]
struct Observer {
    term: Term,
    hole: u32,
    sorts: Vec<u32>,
}

// What a theory holds. It is boxed, so that each exit that drops a theory does it by one call.
#[derive(Drop)]
struct Parts {
    name: Text,
    sorts: IndexSet<Vec<u8>>,
    vars: IndexMap<Vec<u8>, u32>,
    ops: IndexMap<OpKey, OpDecl>,
    // The numbers of the operators by the first words of their forms.
    by_word: IndexMap<Vec<u8>, Overloads>,
    equations: Vec<Listed>,
    derivatives: Vec<Observer>,
    // The sorts of the derivatives' holes.
    hidden: IndexSet<u32>,
    // The sorts of the equations' conditions, and perhaps others.
    condition_sorts: IndexSet<u32>,
    // The constants of a sort that has a case list.
    cases: IndexMap<u32, Vec<u32>>,
}

/// A theory, whose parts are well-sorted.
#[derive(Drop)]
pub struct Theory {
    alloc: Global,
    parts: Box<Parts>,
}

/// Declared variables that are set aside.
#[derive(Drop)]
pub struct Vars {
    vars: IndexMap<Vec<u8>, u32>,
}

impl Model for Vars {
    ghost use Rattle.std.specs.Prelude.{List};
    ghost use Rattle.std.specs.Coded.{coded_list};
    ghost use Rattle.circ_theory.specs.Theory.{Declared};
    ghost use Rattle.circ_theory.specs.Code.{declared_code};

    ghost Value = { List Declared };

    ghost coded = { coded_list declared_code };

    ghost use Rattle.std.specs.Prelude.{◌≤◌, map, length};
    ghost use Rattle.circ_theory.specs.Theory.{declared};
    ghost use Rattle.circ_theory.specs.Limits.{variable_limit};

    ghost view = { λ a. map (λ e. declared e.0.items e.1) a.vars.entries };

    ghost invariant = { λ a. length a.vars.entries ≤ variable_limit };
}

impl Model for Theory {
    ghost use Rattle.circ_theory.specs.Theory.{Theory as TheTheory};
    ghost use Rattle.circ_theory.specs.Code.{theory_code};

    ghost Value = { TheTheory };

    ghost coded = { theory_code };

    ghost use Rattle.circ_theory.specs.Inside.{theory_of, IsKept};

    ghost view = { λ a. theory_of a.parts.value };

    ghost invariant = { λ a. IsKept a.parts.value };
}

impl Theory {
    /// The theory of this name without parts.
    pub fn new(alloc: Global, name: &[u8]) -> Result<Theory, AllocError>
        ensures { IfOk result
            (λ th. th ≡ record {
              name = name.now;
              signature = record { sorts = []; ops = [] };
              variables = [];
              equations = [];
              derivatives = [];
              cases = [];
            }) }
    {
        let parts = Parts {
            name: Text::of(alloc, name)?,
            sorts: IndexSet::new(alloc),
            vars: IndexMap::new(alloc),
            ops: IndexMap::new(alloc),
            by_word: IndexMap::new(alloc),
            equations: Vec::new(alloc),
            derivatives: Vec::new(alloc),
            hidden: IndexSet::new(alloc),
            condition_sorts: IndexSet::new(alloc),
            cases: IndexMap::new(alloc),
        };
        Ok(Theory {
            alloc,
            parts: Box::new(alloc, parts)?,
        })
    }

    /// Does nothing. Its contract is the law of each theory: its parts are well-sorted.
    pub fn known(&self)
        ensures { IsWellFormed self.now }
    {
        let _ = &self.parts;
    }

    /// Does nothing. Its contract is the law of names: no two sorts have one name, no two
    /// variables, and no two operators one form over the same argument sorts.
    pub fn known_names(&self)
        ensures sorts { AreDifferent self.now.signature.sorts }
        ensures variables { AreDifferent (names_of self.now.variables) }
        ensures operators { AreDifferentOperators self.now.signature.ops }
    {
        let _ = self.sort_count();
        let _ = self.var_count();
        let _ = self.op_count();
    }
}
