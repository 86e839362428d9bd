//! Gates, which carry out pieces.
use crate::piece::{Done, Piece, Running};
use sim_engine::Site;
use sim_handoff::Work;
use std::sync::Wait;

/// A worker passes each piece that it claimed to the gate, with the number of its partition. The
/// gate may wait, and must return a right answer.
pub trait Gate<W: Work> {
    /// Whether a world is put into partitions at once, and not only once rounds would pay.
    fn begins_parted(&self) -> bool;

    /// Carries out the piece of a partition.
    fn run<R: Wait>(&self, rt: &R, part: usize, piece: W::Piece) -> W::Done
        ensures { W.does piece result };
}

/// What a worker does before and after each piece of work, beside running it.
pub trait Pause {
    /// Whether a world is put into partitions at once, and not only once rounds would pay.
    fn parts_at_once(&self) -> bool;

    /// Before the piece is run.
    fn before(&self);

    /// After the piece was run, and made this number of rows.
    fn after(&self, rows: u64);
}

// What pauses is a gate of partitions: it runs the piece, and changes nothing in the answer.
impl<S: Site + Send, P: Pause> Gate<Running<S>> for P
where
    S::Row: Send,
    S::Transfer: Send,
{
    ghost use Rattle.sim_windows.specs.Rounds.{Comes};

    fn begins_parted(&self) -> bool {
        self.parts_at_once()
    }

    fn run<R: Wait>(&self, _rt: &R, _part: usize, piece: Piece<S>) -> Done<S>
        ensures { Comes S.engine S.conditions piece.bound piece.part result.outcome }
    {
        self.before();
        let done = piece.run();
        self.after(done.rows());
        done
    }
}

/// A gate that only runs the piece.
pub struct Open;

impl Pause for Open {
    fn parts_at_once(&self) -> bool {
        false
    }

    fn before(&self) {}

    fn after(&self, _rows: u64) {}
}
