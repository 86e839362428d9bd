//! Machines of partitions: a run of a world in which each partition handles its entries in the
//! order of their keys, and partitions are picked in any order.
ghost use Rattle.std.specs.Prelude.{◌≡◌, ◌++◌, ◌≤◌, [], All, Err, IfErr, IfOk, List, None, false, true};
ghost use Rattle.sim_clock.specs.declared.refusal.Refusal.{Refusal as TheRefusal};
ghost use Rattle.sim_engine.specs.Limits.{IsOver, StopsWhere, most_count};
ghost use Rattle.sim_engine.specs.Setting.{Setting};
ghost use Rattle.sim_engine.specs.Simulated.{IsSimulated};
ghost use Rattle.sim_partition.specs.Sites.{refusal_in};
ghost use Rattle.sim_windows.specs.Machines.{HasRun, IsFinishedIf, IsMachineOf, OfFinished, OfMachine, PlaysOn};
ghost use Rattle.sim_windows.specs.Stages.{BeginWith};

use crate::stage::{Ended, Stage};
use crate::world::World;
use sim_clock::Refusal;
use sim_engine::{Pick, Site};
use sim_exchange::PartMap;
use std::alloc::{AllocError, Global};
use std::marker::Model;
use std::mem;

/// A run of a world in partitions. A partition handles what it has due before its bound; partitions
/// are picked in any order. At a barrier each partition gets what was sent to it, and the bounds
/// are set anew, by what is due and by the distances between partitions. Whatever is picked, the
/// result is that of the run of the whole world on one list. An error, out of memory or a count at
/// its limit, spends the machine.
#[derive(Drop)]
pub struct Machine<S: Site> {
    state: Result<Stage<S>, Refusal>,
    rows: Vec<S::Row>,
    end: u64,
}

impl<S: Site> Model for Machine<S> {
    ghost use Rattle.sim_windows.specs.Machines.{IsMachineUnless, Seen};

    ghost Value = { Seen S S.Row S.Transfer };

    ghost view = { λ m. record { state = m.state; rows = m.rows.items; end = m.end } };

    ghost invariant = { λ m. IsMachineUnless S.engine S.conditions m.state
        (record { state = m.state; rows = m.rows.items; end = m.end }) };
}

impl<S: Site> Machine<S> {
    /// The machine of a world before any pick; `layout` gives the partition of each site. Each way
    /// takes 1 to 900,000 milliseconds.
    ///
    /// # Errors
    ///
    /// `AllocError` if memory runs out, or if the world has 2^32 sites, as many as there are
    /// numbers of sites.
    pub fn new(alloc: Global, world: World<S>, layout: PartMap) -> Result<Machine<S>, AllocError>
        requires simulated { IsSimulated S.engine S.conditions world }
        requires horizon { world.horizon ≤ most_count }
        requires ways { All (λ e. (1 ≤ e.least) × (e.least ≤ 900000)) world.edges }
        ensures { IfOk result (IsMachineOf S.engine S.conditions layout world []) }
    {
        let stage = Stage::open(alloc, world, layout)?;
        let end = stage.window_end();
        Ok(Machine {
            state: Ok(stage),
            rows: Vec::new(alloc),
            end,
        })
    }

    /// Does the picked steps one after another, each if it may be done. A partition handles its
    /// least entry due if that comes before its bound. A barrier takes place if no partition has
    /// such an entry and something is left by the horizon. Returns the number of picks that took
    /// effect.
    ///
    /// # Errors
    ///
    /// `Memory` if a growth is refused, and `CountLimit` only if the world's run takes a count past
    /// 2^62 - 1; either spends the machine. A spent machine returns the error that spent it.
    pub fn play(&mut self, picks: &[Pick]) -> Result<u64, Refusal>
        ensures played { PlaysOn S.engine S.conditions result self.old picks.now self.new }
        ensures spent { IfErr result (λ refusal. self.new.state ≡ Err refusal) }
        ensures rows { BeginWith self.old.rows self.new.rows }
        ensures end { IfErr result (λ _. self.new.end ≡ self.old.end) }
        ensures stops { OfMachine S.engine S.conditions self.old
            (λ s. IfErr result (StopsWhere (IsOver S.engine s))) }
        ensures stays { (refusal : TheRefusal) → self.old.state ≡ Err refusal
            → result ≡ Err refusal }
    {
        if let Err(refusal) = &self.state {
            return Err(*refusal);
        }
        let state = mem::replace(&mut self.state, Err(Refusal::Memory));
        match state?.play(picks, &mut self.rows) {
            Ok((stage, count)) => {
                self.end = stage.window_end();
                self.state = Ok(stage);
                Ok(count)
            }
            Err(refusal) => {
                self.state = Err(refusal);
                Err(refusal)
            }
        }
    }

    /// The least of the partitions' bounds, in milliseconds. Once no partition has anything due
    /// before its own bound, nothing that is still done comes before the least. A spent machine
    /// keeps its value.
    pub fn window_end(&self) -> u64
        ensures { result ≡ self.now.end }
    {
        self.end
    }

    /// Whether nothing is left by the horizon, due or on its way. A spent machine is not finished.
    pub fn finished(&self) -> bool
        ensures finished { IsFinishedIf S.engine S.conditions self.now result }
        ensures spent { (refusal : TheRefusal) → self.now.state ≡ Err refusal → result ≡ false }
    {
        match &self.state {
            Ok(stage) => stage.is_finished(),
            Err(_) => false,
        }
    }

    /// The error that spent the machine, if one did.
    pub fn spent(&self) -> Option<Refusal>
        ensures { result ≡ refusal_in self.now.state }
    {
        match &self.state {
            Ok(_) => None,
            Err(refusal) => Some(*refusal),
        }
    }

    /// The rows that were settled at barriers, in the order of keys: all that come before the least
    /// bound of the last round that ended. A spent machine keeps those that it had.
    pub fn rows(&self) -> &[S::Row]
        ensures { result.now ≡ self.now.rows }
    {
        self.rows.as_slice()
    }

    /// All rows in the order of keys, and the sites by number, with the transfers on their way to
    /// them. If the machine is finished, they are those of the world's run on one list. If not,
    /// nothing is promised of them.
    ///
    /// # Errors
    ///
    /// `Memory` if a growth is refused. A spent machine returns the error that spent it.
    pub fn into_run(self) -> Result<Ended<S>, Refusal>
        ensures ended { OfFinished S.engine S.conditions self
            (λ s. IfOk result (λ ended. HasRun S.engine s ended.rows.items ended.sites.items)) }
        ensures memory { refusal_in self.state ≡ None
            → IfErr result (λ refusal. refusal ≡ Refusal.Memory) }
        ensures spent { (refusal : TheRefusal) → self.state ≡ Err refusal → result ≡ Err refusal }
    {
        let Machine {
            state,
            mut rows,
            ..
        } = self;
        let mut rest = state?.into_run()?;
        rows.append(&mut rest.rows)?;
        Ok(Ended {
            rows,
            sites: rest.sites,
        })
    }
}
