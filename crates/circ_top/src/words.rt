//! The words of the command line, read with `clap`.
ghost use Rattle.std.specs.Prelude.{◌≡◌, ◌≢◌, ◌↔◌, ◌≤◌, [], false, IsTrue, map, string_bytes};
ghost use Rattle.std.specs.Prelude.{IfOk, MatchOption, option_map, decimal, codes};
ghost use Rattle.clap.specs.Faults.{fault_of};
ghost use Rattle.clap.specs.Matches.{found_of};
ghost use Rattle.clap.specs.Simple.{app_of, matches_of, new_app, with_rule};
ghost use Rattle.clap.specs.Walk.{rule_of, rows_of};
ghost use Rattle.circ_top.specs.Words.{steps_rule, derives_rule, split_rule, rewrite_rule};
ghost use Rattle.circ_top.specs.Words.{command_rule};
ghost use Rattle.circ_top.specs.Words.{words_rule, circ_app, IsBudget, IsNoBudget, IsNoNumber};
ghost use Rattle.circ_top.specs.Words.{IsFlag, Finds, FindsNothing};

use circ_found::{GREATEST_DERIVES, GREATEST_STEPS};
use circ_search::Limits;
use clap::error::ErrorKind;
use clap::{Arg, ArgAction, ArgMatches, Command};
use itoa::Buffer;
use std::alloc::{AllocError, Global};

/// The steps that a search may make where the words do not say it.
const USUAL_STEPS: u64 = 100_000;

/// The derivations that a search may make where the words do not say it.
const USUAL_DERIVES: u64 = 256;

/// What the words of a run say: the limits with what the flag says, the command's name, and the words that it takes.
#[derive(Clone, Copy)]
pub(crate) struct Words<'m, 'a> {
    pub limits: Limits,
    pub name: &'a str,
    pub given: &'m [&'a str],
}

/// What `clap` finds in the words. None exactly where it refuses them.
pub(crate) fn matches<'a>(
    alloc: Global,
    words: &'a [String],
) -> Result<Option<ArgMatches<'a>>, AllocError>
    ensures { IfOk result (λ o. MatchOption o
        (fault_of circ_app (map string_bytes words.now) ≢ [])
        (λ m. (fault_of circ_app (map string_bytes words.now) ≡ [])
        × (rows_of (found_of m) ≡ matches_of circ_app (map string_bytes words.now)))) }
{
    match definition(alloc)?.try_get_matches_from(words) {
        Ok(matches) => Ok(Some(matches)),
        Err(error) => match error.kind() {
            ErrorKind::OutOfMemory => Err(AllocError),
            _ => Ok(None),
        },
    }
}

/// The words by what `clap` found in them. None exactly where a budget is no number within its
/// limit, or a word is missing.
pub(crate) fn found<'m, 'a>(matches: &'m ArgMatches<'a>) -> Option<Words<'m, 'a>>
    ensures { MatchOption result (FindsNothing (rows_of (found_of matches.now)))
        (λ w. Finds (rows_of (found_of matches.now)) w.limits w.name.now
        (map (λ x. x.now) w.given.now)) }
{
    let steps = budget(matches.get_str("steps"), USUAL_STEPS, GREATEST_STEPS)?;
    let derives = budget(matches.get_str("derives"), USUAL_DERIVES, GREATEST_DERIVES)?;
    let split = is_set(matches.get_str("split"));
    let rewrite = is_set(matches.get_str("rewrite"));
    let name = matches.get_str("command")?;
    let given = matches.get_strs("words")?;
    let limits = Limits {
        steps,
        derives,
        split,
        rewrite,
    };
    Some(Words {
        limits,
        name,
        given,
    })
}

/// The budget of an option with this value, or else the usual one.
fn budget(value: Option<&str>, usual: u64, most: u64) -> Option<u64>
    ensures { MatchOption result
        (IsNoBudget usual most (option_map (λ s. s.now) value.entry))
        (IsBudget usual most (option_map (λ s. s.now) value.entry)) }
{
    match value {
        None => Some(usual),
        Some(text) => number(text, most),
    }
}

/// Whether a flag with this value is set.
fn is_set(value: Option<&str>) -> bool
    ensures { IsFlag (option_map (λ s. s.now) value.entry) result }
{
    match value {
        None => false,
        Some(text) => is_word(text, b"true"),
    }
}

/// The number that a text writes in decimal digits, with no sign and no leading zero, if it is at
/// most this.
pub(crate) fn number(text: &str, most: u64) -> Option<u64>
    ensures { MatchOption result (IsNoNumber most text.now)
        (λ n. (text.now ≡ decimal n) × (n ≤ most)) }
{
    let Ok(number) = text.parse::<u64>() else {
        return None;
    };
    if number > most {
        return None;
    }
    if is_word(text, Buffer::new().format(number).as_bytes()) {
        return Some(number);
    }
    None
}

/// Whether the word is this text.
pub(crate) fn is_word(word: &str, text: &[u8]) -> bool
    ensures { IsTrue result ↔ (word.now ≡ text.now) }
{
    word.as_bytes() == text
}

/// What `clap` is asked for.
fn definition<'a>(alloc: Global) -> Result<Command<'a>, AllocError>
    ensures { IfOk result (λ c. app_of c ≡ circ_app) }
{
    let command = with_options(alloc)?;
    command.arg(command_arg(alloc))?.arg(words_arg(alloc))
}

/// The options and the flags alone.
fn with_options<'a>(alloc: Global) -> Result<Command<'a>, AllocError>
    ensures { IfOk result (λ c. app_of c ≡
        with_rule (with_rule (with_rule (with_rule (new_app (codes "circ")) steps_rule)
        derives_rule) split_rule) rewrite_rule) }
{
    let command = Command::new(alloc, "circ");
    command
        .arg(steps_arg(alloc))?
        .arg(derives_arg(alloc))?
        .arg(split_arg(alloc))?
        .arg(rewrite_arg(alloc))
}

fn steps_arg<'a>(alloc: Global) -> Arg<'a>
    ensures rule { rule_of result ≡ steps_rule }
    ensures local { result.global ≡ false }
{
    Arg::new(alloc, "steps").long("steps")
}

fn derives_arg<'a>(alloc: Global) -> Arg<'a>
    ensures rule { rule_of result ≡ derives_rule }
    ensures local { result.global ≡ false }
{
    Arg::new(alloc, "derives").long("derives")
}

fn split_arg<'a>(alloc: Global) -> Arg<'a>
    ensures rule { rule_of result ≡ split_rule }
    ensures local { result.global ≡ false }
{
    Arg::new(alloc, "split")
        .long("split")
        .action(ArgAction::SetTrue)
}

fn rewrite_arg<'a>(alloc: Global) -> Arg<'a>
    ensures rule { rule_of result ≡ rewrite_rule }
    ensures local { result.global ≡ false }
{
    Arg::new(alloc, "rewrite")
        .long("rewrite")
        .action(ArgAction::SetTrue)
}

fn command_arg<'a>(alloc: Global) -> Arg<'a>
    ensures rule { rule_of result ≡ command_rule }
    ensures local { result.global ≡ false }
{
    Arg::new(alloc, "command").required(true)
}

fn words_arg<'a>(alloc: Global) -> Arg<'a>
    ensures rule { rule_of result ≡ words_rule }
    ensures local { result.global ≡ false }
{
    Arg::new(alloc, "words").required(true).num_args(1..)
}
