//! What a page asks for beside a scenario's text and its script files.
ghost use Rattle.std.specs.Prelude.{◌≡◌};
ghost use Rattle.sqs_page.specs.Asking.{asked_by, newest_if, wanted_by};

use sim_report::{Stretch, Wanted};
use sim_scenario::Newest;

/// What a page chooses, as it hands it over.
#[repr(C)]
pub struct PageOptions {
    /// Whether scenarios of version 3 are read.
    pub version_3: bool,
    /// Whether figures are written behind the report. If they are not, the numbers say nothing.
    pub figures: bool,
    /// The first moment of the stretch that figures are over, in milliseconds.
    pub from: u64,
    /// The moment before which that stretch ends, in milliseconds. The run may end earlier.
    pub until: u64,
    /// More messages than these that are there and not in flight are a backlog.
    pub backlog: u64,
    /// How long a window of figures is, in milliseconds.
    pub window: u64,
}

/// What is asked of a rehearsal.
#[derive(Clone, Copy)]
pub struct Asked {
    /// The newest version of scenarios that is read.
    pub newest: Newest,
    /// What is wanted of the figures behind the report, if they are wanted.
    pub figures: Option<Wanted>,
}

/// The newest version of scenarios that is read, by whether version 3 is asked for.
pub fn newest(version_3: bool) -> Newest
    ensures { result ≡ newest_if version_3 }
{
    if version_3 {
        Newest::Third
    } else {
        Newest::Second
    }
}

impl PageOptions {
    // What is wanted of figures, if they are wanted.
    fn wanted(&self) -> Option<Wanted>
        ensures { result ≡ wanted_by self.now }
    {
        if !self.figures {
            return None;
        }
        let stretch = Stretch {
            from: self.from,
            until: self.until,
        };
        Some(Wanted {
            stretch,
            backlog: self.backlog,
            window: self.window,
        })
    }

    /// What they ask of a rehearsal.
    pub(crate) fn asked(&self) -> Asked
        ensures { result ≡ asked_by self.now }
    {
        Asked {
            newest: newest(self.version_3),
            figures: self.wanted(),
        }
    }
}
