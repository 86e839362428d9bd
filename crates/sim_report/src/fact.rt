//! What the figures need of a row.
ghost use Rattle.std.specs.Prelude.{◌≡◌};
ghost use Rattle.sim_report.specs.Facts.{counts_alone, fact_of, place_in, saying_of};
ghost use Rattle.sim_report.specs.Figures.{counted_as, flight_of, hold_of, is_own, message_of, number_of, of_queue, receipt_of, tries_when, use_of};
ghost use Rattle.sqs_formats.specs.Report.{is_column};

use crate::column::{ARRIVALS, DELETES, RowCount, SENDS, age_of, column_of};
use crate::course::Course;
use sqs_message::{Detail, MessageId, Receipt, Row, RowAnswer, RowKind, RowReceipt};

// The place of arrivals among the counts, before it is known how they came.
const ARRIVAL: u16 = 2;

const BY_FORWARD: u16 = 2;

const BY_REDRIVE: u16 = 3;

/// The place among the counts of arrivals by a move.
pub(crate) const BY_MOVE: u16 = 4;

/// What a row changes of the messages that its actor holds.
#[derive(Clone, Copy, Debug, PartialEq, Eq)]
pub enum Hold {
    /// A receive gave it a message.
    Takes,
    /// Its poll waits, and it holds none.
    Waits,
    /// It asked for messages, and holds none.
    Asks,
    /// It deleted a message, or failed to serve it.
    Settles,
    /// Nothing.
    Keeps,
}

/// What a row does to the flight of its message.
#[derive(Clone, Copy, Debug, PartialEq, Eq)]
pub enum Flight {
    /// The message was received.
    Begins,
    /// It came back.
    Returns,
    /// It left the queue.
    Leaves,
    /// Nothing.
    Stays,
}

/// What a row does with its receipt.
#[derive(Clone, Copy, Debug, PartialEq, Eq)]
pub enum Use {
    /// A receive gave it.
    Gives,
    /// The message was deleted with it.
    Deletes,
    /// A call to delete was made with it, which deleted nothing.
    Calls,
    /// A service failed that began with it.
    Fails,
    /// Nothing.
    Passes,
}

/// What a row says to the figures.
#[derive(Clone, Copy, Debug, PartialEq, Eq)]
pub struct Fact {
    /// The moment of the row, in milliseconds.
    pub at: u64,
    /// The number of the agent that acted.
    pub agent: u32,
    /// What the row counts in the report: its queue, its column there, and the age of a message
    /// that it deleted, in milliseconds.
    pub count: RowCount,
    /// Its place among the counts of the figures; an arrival stands for all three.
    pub place: Option<u16>,
    /// Whether the message of the row is of an origin of its own.
    pub own: bool,
    /// What it changes of the messages that the agent holds.
    pub hold: Hold,
    /// What it does to the flight of its message.
    pub flight: Flight,
    /// The number of its message in the queue; 0 if it has none.
    pub number: u64,
    /// What it does with its receipt.
    pub handling: Use,
    /// Its receipt, if that is one of its queue: the number of the message there, and how often it
    /// had been received.
    pub receipt: Option<(u64, u64)>,
    /// What it says of the course of its message.
    pub course: Course,
}

// Whether a message that arrived is of an origin of its own.
fn is_own(message: Option<MessageId>, detail: Detail) -> bool
    ensures { result ≡ is_own message detail }
{
    match (message, detail) {
        (Some(id), Detail::From(origin)) => id.site == origin.site && id.number == origin.number,
        _ => false,
    }
}

// The place among the counts of a row of this kind with this answer; an arrival stands for all
// three.
fn counted_as(kind: RowKind, answer: RowAnswer) -> Option<u16>
    ensures { result ≡ counted_as kind answer }
{
    let place = match (kind, answer) {
        (RowKind::Send, RowAnswer::New) => 0,
        (RowKind::Send, RowAnswer::Repeat) => 1,
        (RowKind::Arrive, RowAnswer::New) => ARRIVAL,
        (RowKind::Arrive, RowAnswer::Repeat) => 5,
        (RowKind::Receive, RowAnswer::Ok) => 6,
        (RowKind::Receive, RowAnswer::Wait) => 7,
        (RowKind::Receive, RowAnswer::Empty) => 8,
        (RowKind::Delete, RowAnswer::Deleted) => 9,
        (RowKind::Delete, RowAnswer::Kept) => 10,
        (RowKind::Delete, RowAnswer::Gone) => 11,
        (RowKind::Change, RowAnswer::Ok) => 12,
        (RowKind::Fail, RowAnswer::Ok) => 13,
        (RowKind::Forward, RowAnswer::Out) => 14,
        (RowKind::Redrive, RowAnswer::Out) => 15,
        (RowKind::Move, RowAnswer::Out) => 16,
        (RowKind::Expire, RowAnswer::Expired) => 17,
        (RowKind::Send, RowAnswer::Refused(_)) => 18,
        (RowKind::Receive, RowAnswer::Refused(_)) => 19,
        (RowKind::Delete, RowAnswer::Refused(_)) => 20,
        (RowKind::Change, RowAnswer::Refused(_)) => 21,
        (RowKind::Start, RowAnswer::Ok) => 22,
        (RowKind::Cancel, RowAnswer::Ok) => 23,
        (RowKind::Start, RowAnswer::Refused(_)) => 24,
        (RowKind::Cancel, RowAnswer::Refused(_)) => 25,
        (RowKind::Scale, RowAnswer::Ok) => 26,
        _ => return None,
    };
    Some(place)
}

// What a row of this kind with this answer changes of the messages that its actor holds.
fn hold_of(kind: RowKind, answer: RowAnswer) -> Hold
    ensures { result ≡ hold_of kind answer }
{
    match (kind, answer) {
        (RowKind::Receive, RowAnswer::Ok) => Hold::Takes,
        (RowKind::Receive, RowAnswer::Wait) => Hold::Waits,
        (RowKind::Receive, _) => Hold::Asks,
        (RowKind::Delete | RowKind::Fail, _) => Hold::Settles,
        _ => Hold::Keeps,
    }
}

// What a row of this kind with this answer does to the flight of its message.
fn flight_of(kind: RowKind, answer: RowAnswer) -> Flight
    ensures { result ≡ flight_of kind answer }
{
    match (kind, answer) {
        (RowKind::Receive, RowAnswer::Ok) => Flight::Begins,
        (RowKind::Release, RowAnswer::Visible) => Flight::Returns,
        (RowKind::Delete, RowAnswer::Deleted)
        | (RowKind::Redrive | RowKind::Move, RowAnswer::Out)
        | (RowKind::Expire, RowAnswer::Expired) => Flight::Leaves,
        _ => Flight::Stays,
    }
}

// The number of a row's message in its queue; 0 if it has none.
fn number_of(message: Option<MessageId>) -> u64
    ensures { result ≡ number_of message }
{
    match message {
        Some(id) => id.number,
        None => 0,
    }
}

// What a row of this kind with this answer does with its receipt.
fn use_of(kind: RowKind, answer: RowAnswer) -> Use
    ensures { result ≡ use_of kind answer }
{
    match (kind, answer) {
        (RowKind::Receive, RowAnswer::Ok) => Use::Gives,
        (RowKind::Delete, RowAnswer::Deleted) => Use::Deletes,
        (RowKind::Delete, _) => Use::Calls,
        (RowKind::Fail, _) => Use::Fails,
        _ => Use::Passes,
    }
}

// What a row of some kind with some answer says: its column in the report, its place among the
// counts, where an arrival stands for all three, and what it changes.
#[derive(Clone, Copy, Debug, PartialEq, Eq)]
struct Saying {
    column: Option<u16>,
    place: Option<u16>,
    hold: Hold,
    flight: Flight,
    handling: Use,
}

// What a row of any kind with any answer says.
#[cold]
#[inline(never)]
fn any_saying(kind: RowKind, answer: RowAnswer) -> Saying
    ensures { result ≡ saying_of kind answer }
{
    Saying {
        column: column_of(kind, &answer),
        place: counted_as(kind, answer),
        hold: hold_of(kind, answer),
        flight: flight_of(kind, answer),
        handling: use_of(kind, answer),
    }
}

// What a row says that changes nothing but counts.
#[inline(always)]
fn counted(column: Option<u16>, place: u16) -> Saying
    ensures { result ≡ counts_alone column place }
{
    Saying {
        column,
        place: Some(place),
        hold: Hold::Keeps,
        flight: Flight::Stays,
        handling: Use::Passes,
    }
}

// What a row of this kind with this answer says. What the most frequent ones say is known at once.
#[inline(always)]
fn said_by(kind: RowKind, answer: &RowAnswer) -> Saying
    ensures { result ≡ saying_of kind answer.now }
{
    match (kind, answer) {
        (RowKind::Send, RowAnswer::New) => counted(Some(SENDS), 0),
        (RowKind::Arrive, RowAnswer::New) => counted(Some(ARRIVALS), ARRIVAL),
        (RowKind::Forward, RowAnswer::Out) => counted(None, 14),
        (RowKind::Receive, RowAnswer::Ok) => Saying {
            column: Some(2),
            place: Some(6),
            hold: Hold::Takes,
            flight: Flight::Begins,
            handling: Use::Gives,
        },
        (RowKind::Receive, RowAnswer::Wait) => Saying {
            hold: Hold::Waits,
            ..counted(None, 7)
        },
        (RowKind::Receive, RowAnswer::Empty) => Saying {
            hold: Hold::Asks,
            ..counted(Some(3), 8)
        },
        (RowKind::Delete, RowAnswer::Deleted) => Saying {
            column: Some(DELETES),
            place: Some(9),
            hold: Hold::Settles,
            flight: Flight::Leaves,
            handling: Use::Deletes,
        },
        _ => any_saying(kind, *answer),
    }
}

// The receipt of a row, if it has one.
fn receipt_of(receipt: &RowReceipt) -> Option<Receipt>
    ensures { result ≡ receipt_of receipt.now }
{
    match receipt {
        RowReceipt::Made(receipt) => Some(*receipt),
        RowReceipt::Given(handle) => handle.receipt(),
        RowReceipt::Absent => None,
    }
}

// The receipt of a row of this queue, if it is one of the queue.
fn of_queue(queue: u32, receipt: Option<Receipt>) -> Option<(u64, u64)>
    ensures { result ≡ of_queue queue receipt }
{
    match receipt {
        Some(receipt) if receipt.site == queue => Some((receipt.number, receipt.count)),
        _ => None,
    }
}

impl Fact {
    /// What a row says.
    #[inline(always)]
    pub fn of(row: &Row) -> Fact
        ensures { result ≡ fact_of row.now }
    {
        let said = said_by(row.kind, &row.answer);
        let own = is_own(row.message, row.detail);
        Fact {
            at: row.key.at,
            agent: row.agent,
            count: RowCount {
                age: age_of(said.column, row.detail),
                queue: row.queue,
                column: said.column,
            },
            place: said.place,
            own,
            hold: said.hold,
            flight: said.flight,
            number: number_of(row.message),
            handling: said.handling,
            receipt: of_queue(row.queue, receipt_of(&row.receipt)),
            course: Course::of(row.kind, &row.answer, own, row.detail),
        }
    }

    // How often its message had been received, if the row deleted it.
    pub(crate) fn tries(&self) -> Option<u64>
        ensures { result ≡ tries_when (is_column 4 self.now.count.column) self.now.receipt }
    {
        match (self.count.column, self.receipt) {
            (Some(DELETES), Some((_, tries))) => Some(tries),
            _ => None,
        }
    }

    // The number of the message of its receipt; 0 if it has none.
    pub(crate) fn message(&self) -> u64
        ensures { result ≡ message_of self.now.receipt }
    {
        match self.receipt {
            Some((number, _)) => number,
            None => 0,
        }
    }

    // Its place among the counts, where the first `queues` agents are the queues.
    pub(crate) fn place_in(&self, queues: usize) -> Option<u16>
        ensures { result ≡ place_in queues self.now }
    {
        if self.place != Some(ARRIVAL) {
            self.place
        } else if self.own {
            Some(BY_FORWARD)
        } else if (self.agent as usize) < queues {
            Some(BY_REDRIVE)
        } else {
            Some(BY_MOVE)
        }
    }
}
