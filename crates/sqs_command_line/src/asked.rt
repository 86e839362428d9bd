//! What a command line asks for.
use clap::Error;

/// What is wanted of figures.
#[derive(Clone, Copy)]
pub struct WantedLine {
    /// The first moment of which they are wanted, in milliseconds.
    pub from: Option<u64>,
    /// The last one, in milliseconds.
    pub to: Option<u64>,
    /// How many messages that wait are no backlog yet.
    pub backlog: Option<u64>,
    /// How long the windows of the figures are, in milliseconds.
    pub window_figures: Option<u64>,
}

/// A rehearsal.
#[derive(Clone, Copy)]
pub struct RunLine<'a> {
    /// The window, in milliseconds.
    pub window: Option<u64>,
    /// The number of partitions.
    pub parts: Option<u32>,
    /// The partition of each queue, in the form `0,1,0`.
    pub map: Option<&'a str>,
    pub workers: Option<u32>,
    /// The file for the log.
    pub log: Option<&'a str>,
    /// The folder of the scripts.
    pub scripts: Option<&'a str>,
    /// Whether figures are written behind the report.
    pub figures: bool,
    /// What is wanted of them.
    pub wanted: WantedLine,
    /// Whether version 3 of scenarios is read, too.
    pub version_3: bool,
    /// Whether no progress is shown.
    pub quiet: bool,
    /// The file of the scenario.
    pub scenario: Option<&'a str>,
}

/// A check of a scenario.
#[derive(Clone, Copy)]
pub struct CheckLine<'a> {
    /// The folder of the scripts.
    pub scripts: Option<&'a str>,
    /// Whether version 3 of scenarios is read, too.
    pub version_3: bool,
    /// The file of the scenario.
    pub scenario: Option<&'a str>,
}

/// A comparison of two rehearsals.
#[derive(Clone, Copy)]
pub struct CompareLine<'a> {
    /// The folder of the scripts.
    pub scripts: Option<&'a str>,
    /// Whether it is said which queues cannot differ.
    pub reach: bool,
    /// Whether version 3 of scenarios is read, too.
    pub version_3: bool,
    /// The files of the two scenarios.
    pub first: Option<&'a str>,
    pub second: Option<&'a str>,
}

/// Figures of a log.
#[derive(Clone, Copy)]
pub struct FiguresLine<'a> {
    /// The folder of the scripts.
    pub scripts: Option<&'a str>,
    /// What is wanted of the figures.
    pub wanted: WantedLine,
    /// Whether version 3 of scenarios is read, too.
    pub version_3: bool,
    /// The file of the scenario.
    pub scenario: Option<&'a str>,
    /// The file of the log.
    pub log: Option<&'a str>,
}

/// What a command line asks for.
#[derive(Clone, Copy)]
pub enum Line<'a> {
    Run(RunLine<'a>),
    Check(CheckLine<'a>),
    Compare(CompareLine<'a>),
    Figures(FiguresLine<'a>),
}

/// Why words are no command line.
#[derive(Drop)]
pub enum LineFault {
    /// A usage fault, help that was asked for, or out of memory; `clap` has the text.
    Words(Error),
}

impl From<Error> for LineFault {
    ghost use Rattle.std.specs.Prelude.{◌≡◌};
    ghost use Rattle.sqs_command_line.specs.declared.asked.LineFault.TheVariants.{Words};

    ghost from_gives = { λ error fault. fault ≡ Words error };

    fn from(error: Error) -> LineFault {
        LineFault::Words(error)
    }
}
