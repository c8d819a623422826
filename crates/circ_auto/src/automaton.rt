//! Automata.
ghost use Rattle.std.specs.Prelude.{◌≡◌, ◌<◌, ◌≤◌, ◌↔◌, IsTrue, length, option_copied};
ghost use Rattle.std.specs.List.{slice_get};
ghost use Rattle.circ_auto.specs.Graph.{IsWord};
ghost use Rattle.circ_auto.specs.Inside.{parts_of};
ghost use Rattle.circ_auto.specs.Machine.{states, target, is_accepting, arrives, accepts};
ghost use Rattle.circ_auto.specs.Machine.{IsMachine};
ghost use Rattle.circ_auto.specs.declared.TheConstants.{MOST_LETTERS, MOST_STATES};

use std::marker::Model;

/// A finite automaton. Letters and states go by their numbers, from 0.
#[derive(Drop)]
pub struct Automaton {
    letters: Vec<Vec<u8>>,
    start: u32,
    accepting: Vec<bool>,
    targets: Vec<u32>,
}

impl Model for Automaton {
    ghost use Rattle.circ_auto.specs.Machine.{Machine, machine_code, IsMachine};

    ghost Value = { Machine };

    ghost coded = { machine_code };

    ghost use Rattle.circ_auto.specs.Inside.{machine_of};

    ghost view = { λ a. machine_of a };

    ghost invariant = { λ a. IsMachine (machine_of a) };
}

impl Automaton {
    /// An automaton of its parts: the names of its letters, the state at which it starts, for each
    /// state whether it accepts, and the targets, state after state and letter after letter.
    pub(crate) fn of(
        letters: Vec<Vec<u8>>,
        start: u32,
        accepting: Vec<bool>,
        targets: Vec<u32>,
    ) -> Automaton
        requires { IsMachine (parts_of letters start accepting targets) }
        ensures { result ≡ parts_of letters start accepting targets }
    {
        Automaton {
            letters,
            start,
            accepting,
            targets,
        }
    }

    /// What is true of each automaton: it is one. Does nothing.
    pub fn known(&self)
        ensures { IsMachine self.now }
    {
        let _ = &self.start;
    }

    /// The number of letters.
    pub fn letter_count(&self) -> u32
        ensures count { result ≡ length self.now.letters }
        ensures few { result ≤ MOST_LETTERS }
    {
        self.letters.len() as u32
    }

    /// The name of a letter.
    pub fn letter(&self, n: u32) -> Option<&[u8]>
        ensures { option_copied result ≡ slice_get self.now.letters n }
    {
        match self.letters.get(n as usize) {
            Some(name) => Some(name.as_slice()),
            None => None,
        }
    }

    /// The number of states.
    pub fn state_count(&self) -> u32
        ensures count { result ≡ states self.now }
        ensures few { result ≤ MOST_STATES }
    {
        self.accepting.len() as u32
    }

    /// The state at which an automaton starts.
    pub fn start(&self) -> u32
        ensures start { result ≡ self.now.start }
        ensures below { result < states self.now }
    {
        self.start
    }

    /// The target of a letter from a state.
    pub fn target(&self, state: u32, letter: u32) -> u32
        requires state { state < states self.now }
        requires letter { letter < length self.now.letters }
        ensures target { result ≡ target self.now state letter }
        ensures below { result < states self.now }
    {
        self.targets[state as usize * self.letters.len() + letter as usize]
    }

    /// Whether a state accepts.
    pub fn accepts_at(&self, state: u32) -> bool
        requires { state < states self.now }
        ensures { result ≡ is_accepting self.now state }
    {
        self.accepting[state as usize]
    }

    /// Whether a word is accepted.
    pub fn run(&self, word: &[u32]) -> bool
        requires { IsWord (length self.now.letters) word.now }
        ensures { result ≡ accepts self.now word.now }
    {
        let mut state = self.start();
        for letter in word {
            state = self.target(state, *letter);
        }
        self.accepts_at(state)
    }
}

/// Whether two automata have the same letters in the same order.
pub fn same_letters(first: &Automaton, second: &Automaton) -> bool
    ensures { IsTrue result ↔ (second.now.letters ≡ first.now.letters) }
{
    second.letters == first.letters
}
