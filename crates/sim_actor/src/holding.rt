//! The messages that a consumer has.
ghost use Rattle.std.specs.Prelude.{◌≡◌, ◌↔◌, ◌++◌, [], drop, length, true, IfOk};
ghost use Rattle.std.specs.Option.{option_copied};
ghost use Rattle.std.specs.Iterator.Runs.{YieldsRefsInOrder};
ghost use Rattle.std.specs.VecDeque.Iter.{deque_iter_rest, deque_iter_steps};
ghost use Rattle.sqs_redrive.specs.declared.answers.Got.{Got};
ghost use Rattle.sim_actor.specs.Holdings.{failed_first, first_of, only_held, served_first, OfFirst, ServesAll, TakesFirst, all_to_change, with_done, with_failed, with_held};

use sqs_redrive::Got;
use std::alloc::{AllocError, Global};
use std::collections::VecDeque;
use std::collections::vec_deque::Iter;
use std::marker::Model;

/// The messages of one receive, in order. The first of them are those whose visibility timeouts
/// will change, since a service failed. Then come those that were served and will be deleted when
/// all are served, and then those that are held and not served yet. Contracts see the three lists.
#[derive(Drop)]
pub struct Holding {
    messages: VecDeque<Got>,
    failed: usize,
    done: usize,
}

impl Model for Holding {
    ghost use Rattle.std.specs.Prelude.{◌≤◌, ◌+◌, drop, length, take};
    ghost use Rattle.sim_actor.specs.Holdings.{Holding};

    ghost Value = { Holding };

    ghost view = { λ h. record { failed = take h.failed h.messages.items; done = take h.done (drop h.failed h.messages.items); held = drop (h.failed + h.done) h.messages.items } };

    ghost invariant = { λ h. h.failed + h.done ≤ length h.messages.items };
}

impl Holding {
    /// No messages.
    pub fn new(alloc: Global) -> Holding
        ensures { result ≡ only_held [] }
    {
        Holding {
            messages: VecDeque::new(alloc),
            failed: 0,
            done: 0,
        }
    }

    /// These messages, of which none was served yet.
    pub fn of(messages: Vec<Got>) -> Holding
        ensures { result ≡ only_held messages.items }
    {
        Holding {
            messages: VecDeque::from(messages),
            failed: 0,
            done: 0,
        }
    }

    /// Whether there are no messages at all.
    pub fn is_empty(&self) -> bool
        ensures { (result ≡ true) ↔ (self.now ≡ only_held []) }
    {
        self.messages.is_empty()
    }

    /// The first message that is not served yet.
    #[inline(always)]
    pub fn first(&self) -> Option<&Got>
        ensures { option_copied result ≡ first_of self.now.held }
    {
        self.messages.get(self.failed + self.done)
    }

    /// The messages that are not served yet, in order.
    pub fn held(&self) -> Iter<'_, Got>
        ensures list { deque_iter_rest result ≡ self.now.held }
        ensures runs { YieldsRefsInOrder (deque_iter_steps {X = Got}) deque_iter_rest }
    {
        self.messages.range(self.failed + self.done..)
    }

    /// How many messages are not served yet.
    pub fn held_count(&self) -> usize
        ensures { result ≡ length self.now.held }
    {
        self.messages.len() - self.failed - self.done
    }

    /// Puts messages behind those that are not served yet. It fails if memory runs out.
    pub fn append(&mut self, messages: Vec<Got>) -> Result<(), AllocError>
        ensures { IfOk result (λ _. self.new
            ≡ record self.old { held = self.old.held ++ messages.items }) }
    {
        self.messages.append(&mut VecDeque::from(messages))
    }

    /// Takes the first message that is not served yet.
    pub fn take_held(&mut self) -> Option<Got>
        ensures { TakesFirst (λ h. h.held) with_held self.old result self.new }
    {
        let index = self.failed + self.done;
        if index == 0 {
            self.messages.pop_front()
        } else {
            self.messages.remove(index)
        }
    }

    /// Drops the first message that is not served yet, if there is one.
    pub fn drop_held(&mut self)
        ensures { self.new ≡ record self.old { held = drop 1 self.old.held } }
    {
        self.take_held();
    }

    /// Takes the first message that will be deleted.
    pub fn take_done(&mut self) -> Option<Got>
        ensures { TakesFirst (λ h. h.done) with_done self.old result self.new }
    {
        if self.done == 0 {
            return None;
        }
        self.done -= 1;
        self.messages.remove(self.failed)
    }

    /// Takes the first message whose timeout will change.
    pub fn take_failed(&mut self) -> Option<Got>
        ensures { TakesFirst (λ h. h.failed) with_failed self.old result self.new }
    {
        if self.failed == 0 {
            return None;
        }
        self.failed -= 1;
        self.messages.pop_front()
    }

    /// The first message that is not served yet was served, and will be deleted. If there is none,
    /// nothing changes.
    pub fn serve_first(&mut self)
        ensures first { OfFirst self.old (λ got others. self.new
            ≡ served_first self.old got others) }
        ensures none { self.old.held ≡ [] → self.new ≡ self.old }
    {
        if self.failed + self.done < self.messages.len() {
            self.done += 1;
        }
    }

    /// All messages that are not served yet were served: takes the first of them, and the others
    /// take the place of those that will be deleted. If there is none, nothing changes.
    pub fn serve_all(&mut self) -> Option<Got>
        ensures { ServesAll self.old result self.new }
    {
        let first = self.take_held()?;
        self.messages.drain(self.failed..self.failed + self.done);
        self.done = self.messages.len() - self.failed;
        Some(first)
    }

    /// The service of the first message that is not served yet failed. Its timeout will change,
    /// and those of the messages that were served before it. If there is none, nothing changes.
    pub fn fail_first(&mut self)
        ensures first { OfFirst self.old (λ got others. self.new
            ≡ failed_first self.old got others) }
        ensures none { self.old.held ≡ [] → self.new ≡ self.old }
    {
        if self.failed + self.done < self.messages.len() {
            self.failed += self.done + 1;
            self.done = 0;
        }
    }

    /// The timeouts of all messages will change.
    pub fn fail_all(&mut self)
        ensures { self.new ≡ all_to_change self.old }
    {
        self.failed = self.messages.len();
        self.done = 0;
    }

    /// Lets go the messages that were served and those that were not.
    pub fn let_go(&mut self)
        ensures { self.new ≡ record self.old { done = []; held = [] } }
    {
        self.messages.truncate(self.failed);
        self.done = 0;
    }
}
