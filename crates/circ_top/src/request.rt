//! What the words of a run ask for.
ghost use Rattle.std.specs.Prelude.{◌≡◌, ◌≤◌, ℕ, [], ◌∷◌, IfOk, MatchOption, map};
ghost use Rattle.std.specs.Prelude.{◌≢◌, string_bytes, decimal, codes};
ghost use Rattle.std.specs.List.{AllByRecursion};
ghost use Rattle.circ_top.specs.Command.{Generate, Asks, IsCommand, IsNoCommand, IsNoneOfTable};
ghost use Rattle.circ_top.specs.Command.{report_name, IsNoReport, plain_request};
ghost use Rattle.circ_top.specs.Command.{AreNumbersOf, AreNoNumbers};

use crate::words::{Words, found, is_word, matches, number};
use circ_lib::lookup;
use circ_reports::Report;
use circ_search::Limits;
use std::alloc::{AllocError, Global};

/// The fewest streams of a chain.
const LEAST_STREAMS: u64 = 2;

/// The most streams of a chain.
const MOST_STREAMS: u64 = 1_000;

/// The greatest number of a goal and of a derivative.
const MOST_NUMBER: u64 = 4_294_967_295;

/// A command with what it takes: names of files, or the text of the library that is named.
#[derive(Drop)]
pub(crate) enum Request<'a> {
    /// A proof file is checked against a theory file.
    Check {
        report: Report,
        theory: &'a str,
        proof: &'a str,
    },
    /// A proof of a script file's goals over a theory file is searched for within limits, and
    /// stored under a name.
    Prove {
        limits: Limits,
        theory: &'a str,
        script: &'a str,
        proof: &'a str,
    },
    /// A theory file is printed as it is read.
    Show {
        theory: &'a str,
    },
    /// The places of a theory file's greatest special set are printed, for which each start term
    /// has so many replacements at most.
    Contexts {
        budget: u64,
        theory: &'a str,
    },
    /// The terms of a script file are reduced over a theory file, with so many replacements at
    /// most.
    Reduce {
        budget: u64,
        theory: &'a str,
        script: &'a str,
    },
    /// The automata of two files are compared.
    Same {
        first: &'a str,
        second: &'a str,
    },
    /// An experiment is looked for that tells the sides of a goal of a script file apart, over a
    /// theory file and within limits.
    Differ {
        limits: Limits,
        theory: &'a str,
        script: &'a str,
    },
    /// The turns of the search for a proof of a script file's goals over a theory file are shown,
    /// within limits.
    Trace {
        limits: Limits,
        theory: &'a str,
        script: &'a str,
    },
    /// A proof that two regular expressions match the same words is searched for within limits,
    /// and stored under a name.
    Regex {
        limits: Limits,
        left: &'a str,
        right: &'a str,
        proof: &'a str,
    },
    /// A proof file over a theory file is stored in version 2 under another name.
    Upgrade {
        theory: &'a str,
        proof: &'a str,
        new: &'a str,
    },
    /// A derivation without hypotheses is written out from a proof file over a theory file, for a
    /// goal, counted from 1, and an experiment of these derivatives.
    Expand {
        theory: &'a str,
        proof: &'a str,
        goal: u32,
        derivatives: Vec<u32>,
    },
    /// A chain of so many streams is made and proved.
    Generate {
        number: u16,
    },
    /// A text of the library is printed.
    Library {
        text: &'static [u8],
    },
}

/// The request that the words make, if they are those of a command.
pub(crate) fn asked<'a>(
    alloc: Global,
    words: &'a [String],
) -> Result<Option<Request<'a>>, AllocError>
    ensures { IfOk result (λ o. MatchOption o (IsNoCommand (map string_bytes words.now))
        (λ r. Asks (map string_bytes words.now) (plain_request r))) }
{
    let Some(matches) = matches(alloc, words)? else {
        return Ok(None);
    };
    let Some(words) = found(&matches) else {
        return Ok(None);
    };
    by_table(alloc, &words)
}

/// The request of the table of commands.
fn by_table<'a>(alloc: Global, words: &Words<'_, 'a>) -> Result<Option<Request<'a>>, AllocError>
    ensures { IfOk result (λ o. MatchOption o
        (IsNoneOfTable words.now.limits words.now.name.now (map (λ x. x.now) words.now.given.now))
        (λ r. IsCommand words.now.limits words.now.name.now
        (map (λ x. x.now) words.now.given.now) (plain_request r))) }
{
    if is_word(words.name, b"expand") {
        return of_expand(alloc, words);
    }
    Ok(of_fixed(words))
}

/// The request of `expand`, which takes any number of words behind its third.
fn of_expand<'a>(alloc: Global, words: &Words<'_, 'a>) -> Result<Option<Request<'a>>, AllocError>
    requires { words.now.name.now ≡ codes "expand" }
    ensures { IfOk result (λ o. MatchOption o
        (IsNoneOfTable words.now.limits words.now.name.now (map (λ x. x.now) words.now.given.now))
        (λ r. IsCommand words.now.limits words.now.name.now
        (map (λ x. x.now) words.now.given.now) (plain_request r))) }
{
    let [theory, proof, goal, entries @ ..] = words.given else {
        return Ok(None);
    };
    let Some(goal) = number(goal, MOST_NUMBER) else {
        return Ok(None);
    };
    let Some(derivatives) = numbers(alloc, entries)? else {
        return Ok(None);
    };
    Ok(Some(Request::Expand {
        theory,
        proof,
        goal: goal as u32,
        derivatives,
    }))
}

/// The numbers that words write, if each of them is one.
fn numbers(alloc: Global, words: &[&str]) -> Result<Option<Vec<u32>>, AllocError>
    ensures { IfOk result (λ o. MatchOption o (AreNoNumbers (map (λ x. x.now) words.now))
        (λ v. AreNumbersOf v.items (map (λ x. x.now) words.now))) }
{
    let mut numbers = Vec::with_capacity(alloc, words.len())?;
    for word in words {
        let Some(number) = number(word, MOST_NUMBER) else {
            return Ok(None);
        };
        numbers.push(number as u32)?;
    }
    Ok(Some(numbers))
}

/// The request of a command that takes so many words and no other.
fn of_fixed<'a>(words: &Words<'_, 'a>) -> Option<Request<'a>>
    requires { words.now.name.now ≢ codes "expand" }
    ensures { MatchOption result
        (IsNoneOfTable words.now.limits words.now.name.now (map (λ x. x.now) words.now.given.now))
        (λ r. IsCommand words.now.limits words.now.name.now
        (map (λ x. x.now) words.now.given.now) (plain_request r)) }
{
    match words.given {
        [word] => of_one(words, word),
        [first, second] => of_two(words, first, second),
        [first, second, third] => of_three(words, first, second, third),
        _ => None,
    }
}

/// The request with one word.
fn of_one<'a>(words: &Words<'_, 'a>, word: &'a str) -> Option<Request<'a>>
    ensures { MatchOption result
        (IsNoneOfTable words.now.limits words.now.name.now (word.now ∷ []))
        (λ r. IsCommand words.now.limits words.now.name.now (word.now ∷ []) (plain_request r)) }
{
    if is_word(words.name, b"show") {
        return Some(Request::Show { theory: word });
    }
    if is_word(words.name, b"contexts") {
        return Some(Request::Contexts {
            budget: words.limits.steps,
            theory: word,
        });
    }
    if is_word(words.name, b"generate") {
        return chain_of(word);
    }
    if !is_word(words.name, b"library") {
        return None;
    }
    match lookup(word.as_bytes()) {
        None => None,
        Some(text) => Some(Request::Library { text }),
    }
}

/// The chain of the number that a word writes.
fn chain_of<'a>(word: &str) -> Option<Request<'a>>
    ensures { MatchOption result
        ((n : ℕ) → 2 ≤ n → n ≤ 1000 → word.now ≡ decimal n → ⊥)
        (λ r. (n : ℕ) × (plain_request r ≡ Generate n) × (2 ≤ n) × (n ≤ 1000)
        × (word.now ≡ decimal n)) }
{
    let number = number(word, MOST_STREAMS)?;
    if number < LEAST_STREAMS {
        return None;
    }
    Some(Request::Generate {
        number: number as u16,
    })
}

/// The request with two words.
fn of_two<'a>(words: &Words<'_, 'a>, first: &'a str, second: &'a str) -> Option<Request<'a>>
    ensures { MatchOption result
        (IsNoneOfTable words.now.limits words.now.name.now (first.now ∷ second.now ∷ []))
        (λ r. IsCommand words.now.limits words.now.name.now (first.now ∷ second.now ∷ [])
        (plain_request r)) }
{
    if is_word(words.name, b"reduce") {
        return Some(Request::Reduce {
            budget: words.limits.steps,
            theory: first,
            script: second,
        });
    }
    if is_word(words.name, b"same") {
        return Some(Request::Same { first, second });
    }
    if is_word(words.name, b"differ") {
        return Some(Request::Differ {
            limits: words.limits,
            theory: first,
            script: second,
        });
    }
    if is_word(words.name, b"trace") {
        return Some(Request::Trace {
            limits: words.limits,
            theory: first,
            script: second,
        });
    }
    let Some(report) = report_of(words.name) else {
        return None;
    };
    Some(Request::Check {
        report,
        theory: first,
        proof: second,
    })
}

/// The request with three words.
fn of_three<'a>(
    words: &Words<'_, 'a>,
    first: &'a str,
    second: &'a str,
    third: &'a str,
) -> Option<Request<'a>>
    requires { words.now.name.now ≢ codes "expand" }
    ensures { MatchOption result
        (IsNoneOfTable words.now.limits words.now.name.now
        (first.now ∷ second.now ∷ third.now ∷ []))
        (λ r. IsCommand words.now.limits words.now.name.now
        (first.now ∷ second.now ∷ third.now ∷ []) (plain_request r)) }
{
    if is_word(words.name, b"prove") {
        return Some(Request::Prove {
            limits: words.limits,
            theory: first,
            script: second,
            proof: third,
        });
    }
    if is_word(words.name, b"regex") {
        return Some(Request::Regex {
            limits: words.limits,
            left: first,
            right: second,
            proof: third,
        });
    }
    if !is_word(words.name, b"upgrade") {
        return None;
    }
    Some(Request::Upgrade {
        theory: first,
        proof: second,
        new: third,
    })
}

/// What the command with this name prints of an accepted proof.
fn report_of(name: &str) -> Option<Report>
    ensures { MatchOption result (IsNoReport name.now) (λ r. name.now ≡ report_name r) }
{
    if is_word(name, b"check") {
        return Some(Report::Goals);
    }
    if is_word(name, b"relation") {
        return Some(Report::Relation);
    }
    None
}
