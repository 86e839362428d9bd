//! The running figures of an actor.
ghost use Rattle.std.specs.Prelude.{◌≡◌, ◌++◌, map, OnOk};
ghost use Rattle.sim_report.specs.Figured.{actor_numbers, actor_with, fresh_actor};
ghost use Rattle.sim_report.specs.Figures.{figure_fields};
ghost use Rattle.sqs_formats.specs.Rows.{lines};

use crate::fact::Fact;
use crate::figure::{COUNTS, add_figures, named_counts, named_requests, named_services};
use crate::held::{Held, NOTHING};
use crate::lasting::{Lasting, NO_TIME};
use crate::polls::Polls;
use crate::stretch::Stretch;
use crate::tally::count_in;
use sim_records::Lines;
use sqs_message::Text;
use std::alloc::{AllocError, Global};
use std::marker::Model;

/// The running figures of an actor: what they need of the rows so far, without the rows.
#[derive(Drop)]
pub(crate) struct ActorFigures {
    name: Text,
    counts: [u64; COUNTS],
    polls: Polls,
    held: Held,
    // How long it served.
    busy: Lasting,
}

impl Model for ActorFigures {
    ghost use Rattle.sim_report.specs.Figured.{ActorState};

    ghost Value = { ActorState };

    ghost view = { λ a. record { name = a.name; counts = a.counts; polls = a.polls; held = a.held; busy = a.busy } };
}

impl ActorFigures {
    /// The figures of no rows.
    #[tactic(auto, unfolding(crate::specs::Figures::count_names))]
    pub(crate) fn new(alloc: Global, name: Text) -> ActorFigures
        ensures { result ≡ fresh_actor name }
    {
        ActorFigures {
            name,
            counts: [0; COUNTS],
            polls: Polls::new(alloc),
            held: NOTHING,
            busy: NO_TIME,
        }
    }

    /// Takes in what a row of the actor says, which counts in this place.
    ///
    /// # Errors
    ///
    /// `AllocError` if a count is at its greatest value.
    pub(crate) fn take(
        &mut self,
        place: Option<u16>,
        stretch: Stretch,
        fact: &Fact,
    ) -> Result<(), AllocError>
        ensures { OnOk result (self.new ≡ actor_with place stretch fact.now self.old) }
    {
        self.busy.take(stretch, self.held.number > 0, fact.at)?;
        self.held.take(fact.hold)?;
        self.polls.take(stretch.from <= fact.at, fact)?;
        if stretch.from <= fact.at {
            count_in(&mut self.counts, place)?;
        }
        Ok(())
    }

    /// Its name.
    pub(crate) fn name(&self) -> &[u8]
        ensures { result.now ≡ self.now.name }
    {
        self.name.as_bytes()
    }

    /// Adds the lines of its figures.
    ///
    /// # Errors
    ///
    /// `AllocError` if a growth is refused.
    pub(crate) fn write(
        &self,
        alloc: Global,
        stretch: Stretch,
        text: &mut Lines,
    ) -> Result<(), AllocError>
        ensures { OnOk result (text.new
            ≡ text.old ++ lines (map (figure_fields self.now.name) (actor_numbers stretch self.now))) }
    {
        let of = self.name.as_bytes();
        let busy = self.busy.until_end(stretch, self.held.number > 0);
        let counts = named_counts(alloc, &self.counts)?;
        add_figures(text, of, counts.as_slice())?;
        add_figures(text, of, &named_requests(self.polls.asked, &self.counts))?;
        let services = named_services(stretch, &self.counts, self.polls.batches, busy);
        add_figures(text, of, &services)
    }
}
