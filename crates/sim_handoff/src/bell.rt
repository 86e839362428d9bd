//! How a thread waits, without a processor, until another thread has done something.
use crate::brought::{Brings, Brought};
use std::hint::spin_loop;
use std::marker::PhantomData;
use std::sync::Wait;
use std::sync::atomic::{AtomicU64, Ordering};

// How often a wait looks before it sleeps: for 3 to 40 microseconds, depending on the processor.
const LOOKS: u32 = 512;

/// What the bell of hands announces: pieces to claim, and that the owner has stopped.
pub struct Offers;

/// What the bell of the owner announces: answers to collect.
pub struct Answers;

/// Counts how often it was rung. A thread that waits for something calls `look` first and then
/// looks for it. Only a look that found nothing turns what `look` returned into what `wait` takes.
/// A thread that brings something rings afterwards: `ring` takes what only the step that brings it
/// returns. So a ring that comes between the look and the wait ends the wait at once. `A` is what
/// the bell announces, and what is of one bell does not fit the other.
///
/// The types keep that order. Contracts say of the calls only that they are safe, and that `ring`
/// and `look` return. That no wake-up is lost also rests on the order of steps inside `wait` and
/// `ring`. `wait` counts itself as a sleeper and then reads the rings; `ring` adds a ring and then
/// reads the sleepers. So at least one of the two sees the other. The sleep compares 32 bits of the
/// count, and so misses rings only if a multiple of 2^32 come between the read and the sleep.
#[derive(Drop)]
pub struct Bell<A> {
    rings: AtomicU64,
    sleepers: AtomicU64,
    announces: PhantomData<A>,
}

/// How often a bell was rung before a thread looks for what it may announce.
#[derive(Drop)]
pub struct Seen<A> {
    rings: u64,
    of: PhantomData<A>,
}

impl<A> Seen<A> {
    // The look that followed found nothing.
    pub(crate) fn missed(self) -> Missed<A> {
        Missed {
            rings: self.rings,
            of: PhantomData,
        }
    }
}

/// The result of a look that found nothing, with which a thread may wait for what the look missed.
/// Only the looks of an owner and of a hand make it, of what was seen before them.
#[derive(Drop)]
pub struct Missed<A> {
    rings: u64,
    of: PhantomData<A>,
}

/// The bell was rung for what a step brought. Only `Bell::ring` makes it.
#[derive(Drop)]
pub struct Rung<M> {
    step: PhantomData<M>,
}

impl<A> Bell<A> {
    // A bell that was not rung.
    pub(crate) fn new() -> Bell<A> {
        Bell {
            rings: AtomicU64::new(0),
            sleepers: AtomicU64::new(0),
            announces: PhantomData,
        }
    }

    // How often it was rung so far.
    fn rings(&self) -> u64 {
        self.rings.load(Ordering::SeqCst)
    }

    /// Begins a look for what the bell may announce.
    pub fn look(&self) -> Seen<A> {
        Seen {
            rings: self.rings(),
            of: PhantomData,
        }
    }

    // Announces what was brought: rings, and wakes all threads that wait. It takes no lock, and
    // makes no system call if none sleeps.
    pub(crate) fn ring<M: Brings<A>>(&self, _brought: &Brought<M>) -> Rung<M> {
        self.rings.fetch_add(1, Ordering::SeqCst);
        if self.sleepers.load(Ordering::SeqCst) != 0 {
            self.rings.wake_all();
        }
        Rung { step: PhantomData }
    }

    /// Waits until the bell is rung. It returns at once if the bell was rung since the look began
    /// that missed. It first looks at the count a bounded number of times, and then sleeps.
    pub fn wait<R: Wait>(&self, rt: &R, missed: Missed<A>) {
        let Missed { rings: seen, of: _ } = missed;
        for _ in 0..LOOKS {
            if self.rings() != seen {
                return;
            }
            spin_loop();
        }
        self.sleepers.fetch_add(1, Ordering::SeqCst);
        for _ in rt.forever() {
            if self.rings() != seen {
                break;
            }
            self.rings.park(rt, (seen & 0xffff_ffff) as u32);
        }
        self.sleepers.fetch_sub(1, Ordering::SeqCst);
    }
}
