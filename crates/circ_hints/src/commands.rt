//! The commands, and the words that each takes.

/// A command, and the names of the words that it takes.
#[derive(Clone, Copy)]
pub(crate) struct CommandWords {
    pub name: &'static str,
    pub takes: &'static str,
}

/// All commands, in the order in which they are shown.
pub(crate) const COMMANDS: &[CommandWords] = &[
    CommandWords {
        name: "prove",
        takes: "THEORY SCRIPT PROOF",
    },
    CommandWords {
        name: "check",
        takes: "THEORY PROOF",
    },
    CommandWords {
        name: "relation",
        takes: "THEORY PROOF",
    },
    CommandWords {
        name: "show",
        takes: "THEORY",
    },
    CommandWords {
        name: "contexts",
        takes: "THEORY",
    },
    CommandWords {
        name: "reduce",
        takes: "THEORY SCRIPT",
    },
    CommandWords {
        name: "generate",
        takes: "NUMBER",
    },
    CommandWords {
        name: "library",
        takes: "NAME",
    },
    CommandWords {
        name: "differ",
        takes: "THEORY SCRIPT",
    },
    CommandWords {
        name: "trace",
        takes: "THEORY SCRIPT",
    },
    CommandWords {
        name: "regex",
        takes: "LEFT RIGHT PROOF",
    },
    CommandWords {
        name: "upgrade",
        takes: "THEORY PROOF NEW",
    },
    CommandWords {
        name: "expand",
        takes: "THEORY PROOF GOAL ENTRY..",
    },
    CommandWords {
        name: "same",
        takes: "FIRST SECOND",
    },
];

/// The command of this name.
pub(crate) fn command_named(name: &str) -> Option<CommandWords> {
    for n in 0..COMMANDS.len() {
        if COMMANDS[n].name == name {
            return Some(COMMANDS[n]);
        }
    }
    None
}
