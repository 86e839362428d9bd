//! The receives of a queue or of an actor.
ghost use Rattle.std.specs.Prelude.{◌≡◌, OnOk};
ghost use Rattle.sim_report.specs.Figured.{no_polls, polls_with};
ghost use Rattle.sim_report.specs.Figures.{is_given};
ghost use Rattle.sim_report.specs.declared.fact.Hold.TheVariants.{Asks, Takes, Waits};

use crate::fact::{Fact, Hold};
use crate::level::one_more;
use crate::numbers::Numbers;
use std::alloc::{AllocError, Global};

/// To whom a row gave a message, and when.
#[derive(Clone, Copy, Debug, PartialEq, Eq)]
pub(crate) struct Given {
    pub(crate) agent: u32,
    pub(crate) at: u64,
}

/// What receives need of the rows so far.
#[derive(Drop)]
pub(crate) struct Polls {
    // The agents whose polls wait.
    waiting: Numbers,
    // To whom the last row gave a message, if it gave one.
    given: Option<Given>,
    /// How many receives were asked for, and how many gave messages.
    pub(crate) asked: u64,
    pub(crate) batches: u64,
}

// Whether this is the agent and the moment of a row.
fn is_given(given: Option<Given>, fact: &Fact) -> bool
    ensures { result ≡ is_given given fact.now.agent fact.now.at }
{
    match given {
        Some(given) => given.agent == fact.agent && given.at == fact.at,
        None => false,
    }
}

impl Polls {
    /// Those of no rows.
    pub(crate) fn new(alloc: Global) -> Polls
        ensures { result ≡ no_polls }
    {
        Polls {
            waiting: Numbers::new(alloc),
            given: None,
            asked: 0,
            batches: 0,
        }
    }

    // Takes in that a poll of an agent begins to wait.
    #[inline(always)]
    fn wait(&mut self, within: bool, fact: &Fact) -> Result<(), AllocError>
        requires { fact.now.hold ≡ Waits }
        ensures { OnOk result (self.new ≡ polls_with within fact.now self.old) }
    {
        if within {
            self.asked = one_more(self.asked)?;
        }
        self.waiting.add(u64::from(fact.agent))?;
        self.given = None;
        Ok(())
    }

    // Takes in that an agent asked for messages and has none.
    #[inline(never)]
    fn miss(&mut self, within: bool, fact: &Fact) -> Result<(), AllocError>
        requires { fact.now.hold ≡ Asks }
        ensures { OnOk result (self.new ≡ polls_with within fact.now self.old) }
    {
        if within && !self.waiting.has(u64::from(fact.agent)) {
            self.asked = one_more(self.asked)?;
        }
        self.waiting.remove(u64::from(fact.agent));
        self.given = None;
        Ok(())
    }

    // Takes in that a row gave a message to an agent.
    #[inline(always)]
    fn give(&mut self, within: bool, fact: &Fact) -> Result<(), AllocError>
        requires { fact.now.hold ≡ Takes }
        ensures { OnOk result (self.new ≡ polls_with within fact.now self.old) }
    {
        let agent = u64::from(fact.agent);
        if within && !is_given(self.given, fact) {
            self.batches = one_more(self.batches)?;
            if !self.waiting.has(agent) {
                self.asked = one_more(self.asked)?;
            }
        }
        self.waiting.remove(agent);
        self.given = Some(Given {
            agent: fact.agent,
            at: fact.at,
        });
        Ok(())
    }

    /// Takes in what a row says, which lies in the stretch or not.
    ///
    /// # Errors
    ///
    /// `AllocError` if a growth is refused, or the count is at its greatest value.
    #[inline(always)]
    pub(crate) fn take(&mut self, within: bool, fact: &Fact) -> Result<(), AllocError>
        ensures { OnOk result (self.new ≡ polls_with within fact.now self.old) }
    {
        match fact.hold {
            Hold::Settles | Hold::Keeps => {
                self.given = None;
                Ok(())
            }
            Hold::Waits => self.wait(within, fact),
            Hold::Asks => self.miss(within, fact),
            Hold::Takes => self.give(within, fact),
        }
    }
}
