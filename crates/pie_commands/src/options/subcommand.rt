//! The subcommands of `pie`.

use pie_trace::diagnosis::TextKind;

/// The work of a subcommand.
#[derive(Clone, Copy)]
pub(crate) enum Work {
    Run,
    Audit,
    Explain,
    Cut,
    Migrate,
    Storm,
    Params,
    WhatIf,
    Advise,
}

/// A subcommand of `pie`.
#[derive(Clone, Copy)]
pub(crate) struct Subcommand {
    /// Its name on the command line.
    pub(crate) word: &'static str,
    pub(crate) work: Work,
    /// The kind of text that it reads, if it reads one.
    pub(crate) reads: Option<TextKind>,
}

/// A row of the table of subcommands.
macro_rules! named {
    ($word:literal, $work:ident, $reads:expr) => {
        Subcommand { word: $word, work: Work::$work, reads: $reads }
    };
}

/// All subcommands.
pub(crate) const SUBCOMMANDS: [Subcommand; 9] = [
    named!("run", Run, Some(TextKind::Trace)),
    named!("audit", Audit, Some(TextKind::History)),
    named!("explain", Explain, Some(TextKind::History)),
    named!("cut", Cut, Some(TextKind::History)),
    named!("migrate", Migrate, Some(TextKind::WholeHistory)),
    named!("storm", Storm, None),
    named!("params", Params, None),
    named!("what-if", WhatIf, Some(TextKind::History)),
    named!("advise", Advise, None),
];

/// Returns the subcommand of this name.
pub(crate) fn subcommand_named(word: &str) -> Option<Subcommand> {
    for subcommand in SUBCOMMANDS {
        if subcommand.word == word {
            return Some(subcommand);
        }
    }
    None
}
