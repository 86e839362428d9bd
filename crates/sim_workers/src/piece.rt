//! What a worker gets, and what it gives back.
ghost use Rattle.std.specs.Prelude.{◌≡◌, ◌≤◌, ◌+◌, ℕ};
ghost use Rattle.sim_engine.specs.Limits.{most_count};
ghost use Rattle.sim_windows.specs.Rounds.{Comes};
ghost use Rattle.sim_workers.specs.Pieces.{row_count};

use sim_clock::Refusal;
use sim_engine::Site;
use sim_handoff::Work;
use sim_partition::Partition;
use sim_windows::Came;
use std::marker::{Model, PhantomData};

/// A partition, and the bound to which it is to run, in milliseconds.
#[derive(Drop)]
pub struct Piece<S: Site> {
    part: Partition<S>,
    bound: u64,
}

impl<S: Site> Model for Piece<S> {
    ghost use Rattle.std.specs.Prelude.{◌≤◌, ◌+◌};
    ghost use Rattle.sim_engine.specs.Limits.{most_count};
    ghost use Rattle.sim_workers.specs.Pieces.{Task};

    ghost Value = { Task S };

    ghost view = { λ p. record { part = p.part; bound = p.bound } };

    ghost invariant = { λ p. p.bound ≤ most_count + 1 };
}

impl<S: Site> Piece<S> {
    /// A partition with its bound.
    pub fn new(part: Partition<S>, bound: u64) -> Piece<S>
        requires { bound ≤ most_count + 1 }
        ensures { result ≡ record { part = part; bound = bound } }
    {
        Piece { part, bound }
    }

    /// Runs the partition to its bound.
    pub fn run(self) -> Done<S>
        ensures { Comes S.engine S.conditions self.bound self.part result.outcome }
    {
        let Piece { mut part, bound } = self;
        match part.run_to(bound) {
            Ok(made) => Done {
                outcome: Ok(Came { part, made }),
            },
            Err(refusal) => Done {
                outcome: Err(refusal),
            },
        }
    }
}

/// The result of a piece: the partition with what it made, or the error that spent it.
#[derive(Drop)]
pub struct Done<S: Site> {
    pub outcome: Result<Came<S>, Refusal>,
}

impl<S: Site> Done<S> {
    /// The number of rows made; 0 for an error.
    pub fn rows(&self) -> u64
        ensures { result ≡ row_count self.now }
    {
        match &self.outcome {
            Ok(came) => came.made.rows.len() as u64,
            Err(_) => 0,
        }
    }
}

/// A work whose pieces are made of a part and a bound, and whose answers contain the outcome.
pub trait Packs<P, O>: Work {
    // The part of a piece, and its bound.
    ghost packed: { Self.Piece → P × ℕ };

    // The outcome in an answer.
    ghost told: { Self.Done → O };

    /// Makes a piece of a part and its bound.
    fn pack(part: P, bound: u64) -> Self::Piece
        requires { bound ≤ most_count + 1 }
        ensures { packed result ≡ (part, bound) };

    /// The outcome in an answer.
    fn unpack(done: Self::Done) -> O
        ensures { result ≡ told done };
}

/// A work of running partitions, each to its bound. Rounds require no more of a work, and name no
/// other, so the code that starts threads need not fix the work.
pub trait PartWork<S: Site>: Packs<Partition<S>, Result<Came<S>, Refusal>> {
    // A right answer contains an outcome that the partition may have.
    ghost comes: { (piece : Self.Piece) (done : Self.Done) → Self.does piece done
        → Comes S.engine S.conditions (Self.packed piece).1 (Self.packed piece).0 (Self.told done) };
}

/// The running of partitions, as a work that is handed over. It is used in types alone.
pub struct Running<S> {
    of: PhantomData<S>,
}

impl<S: Site + Send> Work for Running<S>
where
    S::Row: Send,
    S::Transfer: Send,
{
    ghost use Rattle.sim_windows.specs.Rounds.{Comes};

    type Piece = Piece<S>;

    type Done = Done<S>;

    ghost does = { λ piece done. Comes S.engine S.conditions piece.bound piece.part done.outcome };
}

impl<S: Site + Send> Packs<Partition<S>, Result<Came<S>, Refusal>> for Running<S>
where
    S::Row: Send,
    S::Transfer: Send,
{
    ghost use Rattle.std.specs.Prelude.{◌≡◌, ◌≤◌, ◌+◌};
    ghost use Rattle.sim_engine.specs.Limits.{most_count};

    ghost packed = { λ piece. (piece.part, piece.bound) };

    ghost told = { λ done. done.outcome };

    fn pack(part: Partition<S>, bound: u64) -> Piece<S>
        requires { bound ≤ most_count + 1 }
        ensures { result ≡ record { part = part; bound = bound } }
    {
        Piece::new(part, bound)
    }

    fn unpack(done: Done<S>) -> Result<Came<S>, Refusal>
        ensures { result ≡ done.outcome }
    {
        let Done { outcome } = done;
        outcome
    }
}

impl<S: Site + Send> PartWork<S> for Running<S>
where
    S::Row: Send,
    S::Transfer: Send,
{
    ghost comes = { λ piece done right. right };
}
