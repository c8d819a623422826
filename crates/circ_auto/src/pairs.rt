//! Whether two automata accept the same words.
ghost use Rattle.std.specs.Prelude.{◌≡◌, ◌<◌, ◌≤◌, length, false, IfOk, Some, None};
ghost use Rattle.circ_auto.specs.Graph.{IsClosedGraph, FindsGoal};
ghost use Rattle.circ_auto.specs.Machine.{Compares};
ghost use Rattle.circ_auto.specs.Pairs.{pairs};
ghost use Rattle.circ_auto.specs.Search.{IsAt};
ghost use Rattle.circ_auto.specs.Knows.{graph_of, Knows, TakesLetter, Expands, Searches};
ghost use Rattle.circ_auto.specs.Knows.{EndsAtGoal, found_word};

use crate::automaton::Automaton;
use crate::visits::{Visit, Walk};
use std::alloc::{AllocError, Global};

/// What comparing two automata answers.
#[derive(Drop)]
pub enum Compared {
    /// Every word is accepted by both or by neither.
    Same,
    /// Exactly one accepts the word.
    Differ {
        /// A shortest such word, by the numbers of its letters.
        word: Vec<u32>,
    },
}

impl<'a> Walk<'a> {
    /// What is true of the pairs of two automata. Does nothing.
    fn known(&self)
        ensures closed { IsClosedGraph (graph_of self.now) }
        ensures few { (graph_of self.now).points ≤ 1000000 }
    {
        self.first.known();
        self.second.known();
    }

    /// The pair to which a letter leads.
    fn step(&self, point: u32, letter: u32) -> u32
        requires point { point < (graph_of self.now).points }
        requires letter { letter < (graph_of self.now).letters }
        ensures step { result ≡ (graph_of self.now).step point letter }
        ensures below { result < (graph_of self.now).points }
    {
        self.first.known();
        self.second.known();
        let count = self.second.state_count();
        let left = self.first.target(point / count, letter);
        let right = self.second.target(point % count, letter);
        left * count + right
    }

    /// Whether exactly one of a pair's states accepts.
    fn is_goal(&self, point: u32) -> bool
        requires { point < (graph_of self.now).points }
        ensures { result ≡ (graph_of self.now).goal point }
    {
        self.second.known();
        let count = self.second.state_count();
        let left = self.first.accepts_at(point / count);
        let right = self.second.accepts_at(point % count);
        if left { !right } else { right }
    }

    /// Takes the step by a letter from the visit at the head. Some: the visit to which it leads is
    /// a goal.
    fn take_step(
        &mut self,
        head: u32,
        visit: Visit,
        letter: u32,
    ) -> Result<Option<Visit>, AllocError>
        requires knows { Knows self.old head letter }
        requires visit { IsAt self.old.visits.items head visit }
        requires letter { letter < (graph_of self.old).letters }
        ensures taken { IfOk result (TakesLetter self.old self.new head visit letter) }
        ensures kept { graph_of self.new ≡ graph_of self.old }
    {
        self.known();
        let point = self.step(visit.point, letter);
        if self.seen[point as usize] {
            return Ok(None);
        }
        let next = Visit {
            point,
            parent: head,
            letter,
            depth: visit.depth + 1,
        };
        if self.is_goal(point) {
            return Ok(Some(next));
        }
        self.visits.push(next)?;
        self.seen[point as usize] = true;
        Ok(None)
    }

    /// TakesLetter the steps by all letters from the visit at the head. Some: one leads to a goal.
    fn expand(&mut self, head: u32) -> Result<Option<Visit>, AllocError>
        requires knows { Knows self.old head 0 }
        requires head { head < length self.old.visits.items }
        ensures expanded { IfOk result (Expands self.new head) }
        ensures kept { graph_of self.new ≡ graph_of self.old }
    {
        let visit = self.visits[head as usize];
        let count = self.first.letter_count();
        for letter in 0..count {
            if let Some(goal) = self.take_step(head, visit, letter)? {
                return Ok(Some(goal));
            }
        }
        Ok(None)
    }

    /// Searches on. Some: the visit is a goal.
    fn search(&mut self) -> Result<Option<Visit>, AllocError>
        requires { Knows self.old 0 0 }
        ensures searched { IfOk result (Searches self.new) }
        ensures kept { graph_of self.new ≡ graph_of self.old }
    {
        let mut head = 0;
        while (head as usize) < self.visits.len() {
            if let Some(goal) = self.expand(head)? {
                return Ok(Some(goal));
            }
            self.known();
            head += 1;
        }
        Ok(None)
    }

    /// What the search finds from its start.
    fn outcome(&mut self, alloc: Global) -> Result<Compared, AllocError>
        requires { Knows self.old 0 0 }
        ensures { IfOk result (λ c. FindsGoal (graph_of self.old) (found_word c)) }
    {
        match self.search()? {
            Some(goal) => Ok(Compared::Differ {
                word: self.word_to(alloc, goal)?,
            }),
            None => Ok(Compared::Same),
        }
    }

    /// The word that leads to a goal.
    fn word_to(&self, alloc: Global, goal: Visit) -> Result<Vec<u32>, AllocError>
        requires { EndsAtGoal self.now goal }
        ensures { IfOk result (λ w. FindsGoal (graph_of self.now) (Some w.items)) }
    {
        let mut word = Vec::new(alloc);
        word.push(goal.letter)?;
        let mut at = goal.parent;
        while at != 0 {
            let visit = self.visits[at as usize];
            word.push(visit.letter)?;
            at = visit.parent;
        }
        word.reverse();
        Ok(word)
    }
}

/// A search that has come to the start alone, which is no goal.
fn begin<'a>(
    alloc: Global,
    first: &'a Automaton,
    second: &'a Automaton,
    start: u32,
) -> Result<Walk<'a>, AllocError>
    requires same_letters { length second.now.letters ≡ length first.now.letters }
    requires start { start ≡ (pairs first.now second.now).start }
    requires no_goal { (pairs first.now second.now).goal start ≡ false }
    ensures knows { IfOk result (λ s. Knows s 0 0) }
    ensures graph { IfOk result (λ s. graph_of s ≡ pairs first.now second.now) }
{
    first.known();
    second.known();
    let count = first.state_count() as usize * second.state_count() as usize;
    let mut seen = vec![in alloc; false; count]?;
    seen[start as usize] = true;
    let mut visits = Vec::new(alloc);
    visits.push(Visit {
        point: start,
        parent: 0,
        letter: 0,
        depth: 0,
    })?;
    Ok(Walk {
        first,
        second,
        visits,
        seen,
    })
}

/// Whether two automata over the same letters accept the same words, and else a shortest word that
/// exactly one accepts: the first by the order of the letters.
pub fn compare(alloc: Global, first: &Automaton, second: &Automaton) -> Result<Compared, AllocError>
    requires { second.now.letters ≡ first.now.letters }
    ensures { IfOk result (λ c. Compares first.now second.now (found_word c)) }
{
    first.known();
    second.known();
    let start = start_of(first, second);
    if first.accepts_at(first.start()) != second.accepts_at(second.start()) {
        return Ok(Compared::Differ {
            word: Vec::new(alloc),
        });
    }
    let mut search = begin(alloc, first, second, start)?;
    search.outcome(alloc)
}

/// The pair of both starts.
fn start_of(first: &Automaton, second: &Automaton) -> u32
    ensures start { result ≡ (pairs first.now second.now).start }
    ensures below { result < (pairs first.now second.now).points }
{
    first.known();
    second.known();
    first.start() * second.state_count() + second.start()
}
