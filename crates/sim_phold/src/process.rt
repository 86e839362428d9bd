//! Processes of PHOLD, as a kind of sites.
ghost use Rattle.std.specs.Prelude.{◌≡◌, ◌≤◌, ◌<◌};
ghost use Rattle.sim_phold.specs.Phold.{up_to};

use rand_core::utils::NextWord;
use rand_pcg::Pcg32;
use sim_clock::{Agenda, Class, Key, Refusal};
use sim_engine::{Effects, Site};

/// The greatest count of a process: the engine's limit of counts.
const MOST: u64 = 4_611_686_018_427_387_903;

/// An event on its way to a process.
#[derive(Drop)]
pub struct Event {
    /// The key of its arrival. Its agent is the number of the process that sent it. Its number is
    /// how many events that process had handled before.
    pub key: Key,
    /// The number of the process that receives it.
    pub to: u32,
}

/// Reports that a process handled an event.
#[derive(Drop)]
pub struct Handling {
    /// The key of the event's arrival.
    pub key: Key,
    /// The number of the process.
    pub number: u32,
    /// The number of events that it has handled, including this one.
    pub count: u64,
}

/// A process. For each event that it handles it sends one, to a process and after a time that it
/// draws.
#[derive(Drop)]
pub struct Process {
    /// Its number.
    pub number: u32,
    /// The number of the last process. An event goes to any process from 0 to this one.
    pub last: u32,
    /// The least time until an event arrives, in milliseconds.
    pub lookahead: u32,
    /// The greatest time beyond that, in milliseconds.
    pub hold: u32,
    /// Its random words.
    pub words: Pcg32,
    /// The number of events that it has handled so far.
    pub count: u64,
    /// The keys of the events on their way to it.
    pub arriving: Agenda,
}

// A number from 0 to a greatest one, by a word that was drawn.
fn up_to(greatest: u32, word: u32) -> u32
    ensures number { result ≡ up_to greatest word }
{
    (u64::from(word) % (u64::from(greatest) + 1)) as u32
}

impl Site for Process {
    ghost use Rattle.sim_phold.specs.Phold.{phold, phold_conditions};
    ghost use Rattle.sim_phold.specs.Laws.{phold_laws};

    type Row = Handling;

    type Transfer = Event;

    ghost engine = { phold };

    ghost conditions = { phold_conditions };

    fn transfer_key(transfer: &Event) -> Key {
        transfer.key
    }

    fn to(transfer: &Event) -> u32 {
        transfer.to
    }

    fn row_key(row: &Handling) -> Key {
        row.key
    }

    fn row_site(row: &Handling) -> u32 {
        row.number
    }

    fn number(&self) -> u32 {
        self.number
    }

    fn least_due(&self) -> Option<Key> {
        self.arriving.peek()
    }

    fn accept(&mut self, transfer: Event) -> Result<(), Refusal> {
        self.arriving.push(transfer.key)
    }

    fn handle_into(
        &mut self,
        key: Key,
        effects: &mut Effects<Handling, Event>,
    ) -> Result<(), Refusal> {
        if self.count >= MOST {
            return Err(Refusal::CountLimit);
        }
        self.arriving.pop_least();
        let to = up_to(self.last, self.words.next_word());
        let hold = up_to(self.hold, self.words.next_word());
        let event = Event {
            key: Key {
                at: key.at + u64::from(self.lookahead) + u64::from(hold),
                agent: self.number,
                class: Class::Arrival,
                number: self.count,
            },
            to,
        };
        self.count += 1;
        let handling = Handling {
            key,
            number: self.number,
            count: self.count,
        };
        effects.say_sent(handling, event)?;
        Ok(())
    }

    ghost laws = { phold_laws };
}
