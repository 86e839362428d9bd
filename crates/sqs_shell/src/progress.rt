//! The progress of a run, shown on standard error.
ghost use Rattle.std.specs.Prelude.{◌≡◌, ◌≤◌};
ghost use Rattle.sqs_shell.specs.Progress.{is_shown, share};

use sqs_rehearsal::Watch;
use std::io::IsTerminal;
use std::time::{Duration, Instant};

/// The least time from one line to the next, in milliseconds.
const PAUSE: u128 = 250;

/// Shows the progress of a run in one line on standard error, which it overwrites a few times a
/// second.
#[derive(Drop)]
pub struct Progress<'a> {
    rt: &'a HostRuntime,
    started: Option<Instant>,
    last: u128,
    rows: u64,
}

// Whether the progress is shown: standard error is a terminal, and the log does not go to one.
fn is_shown(quiet: bool, to_terminal: bool, log_to_terminal: bool) -> bool
    ensures { result ≡ is_shown quiet to_terminal log_to_terminal }
{
    !quiet && to_terminal && !log_to_terminal
}

// The percentage of the horizon that a moment is.
fn share(moment: u64, horizon: u64) -> u128
    requires { 1 ≤ horizon }
    ensures { result ≡ share moment horizon }
{
    u128::from(moment) * 100 / u128::from(horizon)
}

impl<'a> Progress<'a> {
    /// The progress of a run that begins, whose log goes to a file or else to standard output.
    pub fn new(rt: &'a HostRuntime, quiet: bool, has_file: bool) -> Progress<'a> {
        let log_to_terminal = !has_file && rt.stdout().is_terminal();
        let started = if is_shown(quiet, rt.stderr().is_terminal(), log_to_terminal) {
            Instant::now(rt).ok()
        } else {
            None
        };
        Progress {
            rt,
            started,
            last: 0,
            rows: 0,
        }
    }

    // Shows the progress, unless it was shown just before. The next output overwrites it.
    fn tell(&mut self, moment: u64, horizon: u64, passed: Duration) {
        let now = passed.as_millis();
        if horizon == 0 || now < self.last.saturating_add(PAUSE) {
            return;
        }
        self.last = now;
        let share = share(moment, horizon);
        let rows = self.rows;
        let seconds = passed.as_secs();
        let _ = eprint!(self.rt; "\x1b[K{share} % of the horizon, {rows} rows, {seconds} s\r");
    }

    /// Wipes the line.
    pub fn end(self) {
        if self.last > 0 {
            let _ = eprint!(self.rt; "\x1b[K");
        }
    }
}

impl Watch for Progress<'_> {
    fn came_to(&mut self, moment: u64, horizon: u64, rows: usize) {
        self.rows = self.rows.saturating_add(rows as u64);
        if let Some(started) = self.started {
            if let Ok(passed) = started.elapsed(self.rt) {
                self.tell(moment, horizon, passed);
            }
        }
    }
}
