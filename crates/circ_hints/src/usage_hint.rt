//! The hint for words that are no command.
use crate::commands::{COMMANDS, CommandWords, command_named};
use crate::run_words::Asked;
use crate::texts::{push_line, written};
use std::alloc::{AllocError, Global};
use std::fmt::Write;

/// The hint for words that are no command, of which the first is the program's name: which word is
/// at fault, and the table of commands.
pub fn usage(alloc: Global, words: &[String]) -> Result<String, AllocError> {
    let mut out = String::new(alloc);
    let done = push_usage(&mut out, words);
    written(out, done)
}

fn push_usage(out: &mut String, words: &[String]) -> Result<(), AllocError> {
    if !asks_for_help(words) {
        push_fault(out, Asked::new(words))?;
    }
    push_table(out)?;
    out.push_str(OPTIONS)
}

/// The lines of the options.
const OPTIONS: &str =
    "  --steps N (0 to 1000000) and --derives N (0 to 10000) bound what a command does
  --split has prove and regex split hidden goals into cases
  --rewrite has them rewrite hidden goals by what was derived before
";

/// Appends a line for each command.
fn push_table(out: &mut String) -> Result<(), AllocError> {
    for n in 0..COMMANDS.len() {
        let CommandWords { name, takes } = COMMANDS[n];
        writeln!(out, "  circ {name} {takes}")?;
    }
    Ok(())
}

/// Whether the words ask for the table.
fn asks_for_help(words: &[String]) -> bool {
    match words.get(1) {
        Some(word) => word.as_str() == "--help" || word.as_str() == "-h",
        None => false,
    }
}

/// Appends what is wrong with the words.
fn push_fault(out: &mut String, asked: Asked<'_>) -> Result<(), AllocError> {
    if let Some(option) = asked.unknown_option() {
        return push_line(out, "circ: there is no option ", option);
    }
    let name = asked.command();
    match command_named(name) {
        Some(command) => push_needs(out, name, needs(asked, command)),
        None if name.is_empty() => out.push_str("circ: a command is missing\n"),
        None => push_line(out, "circ: there is no command ", name),
    }
}

fn push_needs(out: &mut String, name: &str, needs: &str) -> Result<(), AllocError> {
    writeln!(out, "circ: {name} needs {needs}")
}

/// What a command takes that the words do not have.
fn needs(asked: Asked<'_>, command: CommandWords) -> &'static str {
    if command.name == "expand" && asked.has_at_least(3) {
        return "numbers up to 4294967295, without a sign or zeros before them";
    }
    if !asked.has_words(command.takes.split(' ').count()) {
        return command.takes;
    }
    match command.name {
        "library" => "BITS, STREAM, TREE, LANG or PROC",
        "generate" => "a number from 2 to 1000, without a sign or zeros before it",
        _ => "each option once, with a number within its limits, without a sign or zeros before it",
    }
}
