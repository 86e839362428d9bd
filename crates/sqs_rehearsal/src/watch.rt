//! The watch of a run's progress.

/// Is informed of the progress of a run.
pub trait Watch {
    /// The run has handed on `rows` more rows. The last of them is from `moment`, in milliseconds,
    /// and the run ends at `horizon`, in milliseconds.
    fn came_to(&mut self, moment: u64, horizon: u64, rows: usize);
}

/// Ignores the progress.
#[derive(Drop)]
pub struct Unwatched;

impl Watch for Unwatched {
    fn came_to(&mut self, _moment: u64, _horizon: u64, _rows: usize) {}
}
