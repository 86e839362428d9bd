//! Forwards under way from an actor to a queue.
ghost use Rattle.std.specs.Prelude.{◌≡◌, ◌==◌, ◌&&◌, false, get_or, OnOk};
ghost use Rattle.sim_report.specs.Doors.{to_marked};
ghost use Rattle.sim_report.specs.Forwards.{arrived, differs, first_forwarded, forwarded, in_order, is_same, is_uneven, leaves_open, no_forwards};

use crate::marks::is_marked;
use std::alloc::{AllocError, Global};
use std::collections::VecDeque;
use std::marker::Model;

/// How well it is known when a message was first sent.
#[derive(Clone, Copy, Debug, PartialEq, Eq)]
pub(crate) enum How {
    Surely,
    /// It is right if forwards kept their order.
    IfOrdered,
    Unknown,
}

/// When a message was first sent, in milliseconds, and how well that is known.
#[derive(Clone, Copy, Debug, PartialEq, Eq)]
pub(crate) struct FirstSend {
    pub(crate) at: u64,
    pub(crate) how: How,
}

/// The first send of a message of which nothing is known.
pub(crate) const UNKNOWN: FirstSend = FirstSend {
    at: 0,
    how: How::Unknown,
};

/// A forward that is under way: when it was sent, in milliseconds, and the first send of its message.
#[derive(Clone, Copy, Debug, PartialEq, Eq)]
pub(crate) struct Forward {
    at: u64,
    first: FirstSend,
}

/// The forwards of an actor to a queue.
#[derive(Drop)]
pub(crate) struct Forwards {
    // The number of the queue.
    to: u32,
    // Those under way, the oldest first.
    under_way: VecDeque<Forward>,
    // Whether two of different first sends were under way at once since none was.
    mixed: bool,
    // How long the last one took, in milliseconds.
    took: Option<u64>,
    // Whether not all took equally long.
    uneven: bool,
    // Whether a new message came while they were mixed.
    in_doubt: bool,
}

impl Model for Forwards {
    ghost use Rattle.sim_report.specs.Forwards.{ForwardsState};

    ghost Value = { ForwardsState };

    ghost view = { λ f. record { to = f.to; under_way = f.under_way.items; mixed = f.mixed; took = f.took; uneven = f.uneven; in_doubt = f.in_doubt } };
}

// Whether these are the same.
fn is_same(one: FirstSend, other: FirstSend) -> bool
    ensures { result ≡ is_same one other }
{
    one.at == other.at && one.how == other.how
}

impl FirstSend {
    // As it is known where it is right only if forwards kept their order.
    fn in_order(self) -> FirstSend
        ensures { result ≡ in_order self }
    {
        match self.how {
            How::Surely => FirstSend {
                at: self.at,
                how: How::IfOrdered,
            },
            _ => self,
        }
    }
}

// Whether a forward took another time than the one before.
fn is_uneven(took: u64, before: Option<u64>) -> bool
    ensures { result ≡ is_uneven took before }
{
    match before {
        Some(before) => took != before,
        None => false,
    }
}

impl Forwards {
    /// None to the queue with this number.
    pub(crate) fn none(alloc: Global, to: u32) -> Forwards
        ensures { result ≡ no_forwards to }
    {
        Forwards {
            to,
            under_way: VecDeque::new(alloc),
            mixed: false,
            took: None,
            uneven: false,
            in_doubt: false,
        }
    }

    /// Whether they go to the queue with this number.
    pub(crate) fn go_to(&self, to: u32) -> bool
        ensures { result ≡ (self.now.to == to) }
    {
        self.to == to
    }

    // Whether the oldest one under way is of another first send.
    fn differs(&self, first: FirstSend) -> bool
        ensures { result ≡ differs first self.now.under_way }
    {
        match self.under_way.front() {
            Some(forward) => !is_same(forward.first, first),
            None => false,
        }
    }

    /// Takes in that a message with this first send was forwarded at this moment.
    ///
    /// # Errors
    ///
    /// `AllocError` if a growth is refused.
    pub(crate) fn send(&mut self, at: u64, first: FirstSend) -> Result<(), AllocError>
        ensures { OnOk result (self.new ≡ forwarded at first self.old) }
    {
        self.mixed = self.mixed || self.differs(first);
        self.under_way.push_back(Forward { at, first })?;
        Ok(())
    }

    /// The first send of the message whose forward arrives next.
    pub(crate) fn first(&self) -> FirstSend
        ensures { result ≡ first_forwarded self.now.mixed self.now.under_way }
    {
        match self.under_way.front() {
            Some(forward) if self.mixed => forward.first.in_order(),
            Some(forward) => forward.first,
            None => UNKNOWN,
        }
    }

    /// Takes in that the oldest one arrived at this moment, as a new message or again.
    pub(crate) fn arrive(&mut self, at: u64, new: bool)
        ensures { self.new ≡ arrived at new self.old }
    {
        if let Some(forward) = self.under_way.pop_front() {
            let took = at.saturating_sub(forward.at);
            self.in_doubt = self.in_doubt || new && self.mixed;
            self.mixed = self.mixed && !self.under_way.is_empty();
            self.uneven = self.uneven || is_uneven(took, self.took);
            self.took = Some(took);
        }
    }

    /// Whether they leave open which message came, as they were mixed and did not take equally long.
    pub(crate) fn leave_open(&self) -> bool
        ensures { result ≡ leaves_open self.now }
    {
        self.uneven && self.in_doubt
    }

    /// Whether they go to a marked queue and leave that open.
    pub(crate) fn are_open(&self, marks: &[bool]) -> bool
        ensures { result ≡ leaves_open self.now && get_or marks.now self.now.to false }
    {
        self.leave_open() && is_marked(marks, self.to as usize)
    }

    /// How many are under way to a marked queue.
    pub(crate) fn to_marked(&self, marks: &[bool]) -> u64
        ensures { result ≡ to_marked marks.now self.now }
    {
        if is_marked(marks, self.to as usize) {
            self.under_way.len() as u64
        } else {
            0
        }
    }
}
