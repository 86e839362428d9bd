//! Counters: an example of a kind of sites.
ghost use Rattle.std.specs.Prelude.{◌≡◌};

use sim_clock::{Agenda, Class, Key, Refusal};
use sim_engine::{Effects, Site};

/// The greatest count of a counter: the engine's limit of counts.
const MOST: u64 = 4_611_686_018_427_387_903;

/// A token on its way to a counter: the transfer of this kind of sites. A transfer has a key, which
/// says when it arrives and distinguishes it from all others, and the number of the site that
/// receives it.
#[derive(Drop)]
pub struct Token {
    /// The key of its arrival. Its agent is the number of the counter that sent it. Its number is
    /// how many that counter had sent before.
    pub key: Key,
    /// The number of the counter that receives it.
    pub to: u32,
}

/// Reports that a counter has counted a token: the row of this kind of sites. A row has the key of
/// the handling that made it, and the number of the site at which it was made.
#[derive(Drop)]
pub struct Told {
    /// The key of the token's arrival.
    pub key: Key,
    /// The number of the counter.
    pub number: u32,
    /// The number of tokens that it has counted, including this one.
    pub count: u64,
}

/// Counts the tokens that reach it, and sends each on to the next counter. The entries due at a
/// counter are the arrivals of the tokens on their way to it.
#[derive(Drop)]
pub struct Counter {
    /// Its number.
    pub number: u32,
    /// The number of the counter to which it sends tokens.
    pub next: u32,
    /// How long a token takes to get there, in milliseconds.
    pub way: u32,
    /// The number of tokens that it has counted so far.
    pub count: u64,
    /// The keys of the tokens on their way to it.
    pub arriving: Agenda,
}

// A kind of sites has three ghost members. `engine` defines what its functions do, and they are
// proved to do that. `conditions` says what its sites and transfers are like at every step of a
// run. `laws` is the proof that handlings and deliveries keep what the engine requires of every
// site.
impl Site for Counter {
    ghost use Rattle.sim_ring.specs.Ring.{ring, ring_conditions};
    ghost use Rattle.sim_ring.specs.Laws.{ring_laws};

    type Row = Told;

    type Transfer = Token;

    ghost engine = { ring };

    ghost conditions = { ring_conditions };

    fn transfer_key(transfer: &Token) -> Key {
        transfer.key
    }

    fn to(transfer: &Token) -> u32 {
        transfer.to
    }

    fn row_key(row: &Told) -> Key {
        row.key
    }

    fn row_site(row: &Told) -> u32 {
        row.number
    }

    fn number(&self) -> u32 {
        self.number
    }

    fn least_due(&self) -> Option<Key> {
        self.arriving.peek()
    }

    // A token is on its way: the key of its arrival is due from now on.
    fn accept(&mut self, transfer: Token) -> Result<(), Refusal> {
        self.arriving.push(transfer.key)
    }

    // A token has arrived: it is counted, and sent on. The entry handled is always the least due,
    // and so it is the one that leaves the agenda.
    fn handle_into(&mut self, key: Key, effects: &mut Effects<Told, Token>) -> Result<(), Refusal> {
        if self.count >= MOST {
            return Err(Refusal::CountLimit);
        }
        self.arriving.pop_least();
        let token = Token {
            key: Key {
                at: key.at + u64::from(self.way),
                agent: self.number,
                class: Class::Arrival,
                number: self.count,
            },
            to: self.next,
        };
        self.count += 1;
        let told = Told {
            key,
            number: self.number,
            count: self.count,
        };
        effects.say_sent(told, token)?;
        Ok(())
    }

    ghost laws = { ring_laws };
}
