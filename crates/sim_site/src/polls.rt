//! The polls that wait at a site, with a tree of their ends.
ghost use Rattle.std.specs.Prelude.{MatchOption, None, Some, [], drop, length, map, position, true, ◌++◌, ◌<◌, ◌∷◌, ◌==◌, ◌≡◌};
ghost use Rattle.sim_clock.specs.Firsts.{without};
ghost use Rattle.sim_clock.specs.Order.{least};
ghost use Rattle.sim_index.specs.Marks.{least_of};
ghost use Rattle.sqs_model.specs.Dues.{poll_key};
ghost use Rattle.sqs_model.specs.Step.{ends_at};
ghost use Rattle.sim_index.specs.Marked.{AreMarked};
ghost use Rattle.sim_site.specs.Marked.{AreWaiting, IsFirstAt, IsLeft, KeepPolls, KeepWaiting, end_mark, place_ends_at, waiting};
ghost use Rattle.sim_site.specs.Kept.{AddsOrKeeps};
ghost use Rattle.sim_site.specs.Reading.{IsPlaceOfFirst};

use crate::agents::Poll;
use sim_clock::Key;
use sim_index::{Mark, MarkedList, NO_MARK};
use std::alloc::{AllocError, Global};
use std::marker::Model;

// The mark of a place where a poll may wait: the key of its end.
fn mark_of(place: &Option<Poll>) -> Mark
    ensures { result ≡ end_mark place.now }
{
    match place {
        None => NO_MARK,
        Some(poll) => Mark {
            due: Some(poll.key()),
            flags: 1,
        },
    }
}

// Whether the poll at a place ends by this key.
fn is_ended_by(place: &Option<Poll>, key: Key) -> bool
    ensures { result ≡ place_ends_at key place.now }
{
    match place {
        None => false,
        Some(poll) => key.cmp(&poll.key()).is_eq(),
    }
}

// Makes room for one more poll. If there is none, it drops empty places.
fn make_room(places: &mut MarkedList<Option<Poll>>) -> Result<(), AllocError>
    requires { AreMarked end_mark places.old }
    ensures { KeepPolls places.old places.new }
{
    if places.is_ready() {
        return Ok(());
    }
    places.retain(|place| place.is_some())?;
    Ok(())
}

// The poll at a place leaves.
fn leave(places: &mut MarkedList<Option<Poll>>, place: usize)
    requires place { place < length places.old.values }
    requires marked { AreMarked end_mark places.old }
    ensures { IsLeft place places.old places.new }
{
    *places.value_mut(place) = None;
    places.set_mark(place, &NO_MARK);
}

// If no poll waits, drops all places.
fn forget_empty(places: &mut MarkedList<Option<Poll>>, count: usize)
    requires { AreWaiting places.old count }
    ensures { KeepWaiting count places.old places.new }
{
    if count == 0 {
        places.clear();
    }
}

// The place of the first waiting poll.
fn place_of_first(places: &MarkedList<Option<Poll>>) -> Option<usize>
    requires { AreMarked end_mark places.now }
    ensures { MatchOption result (waiting places.now.values ≡ []) (IsFirstAt places.now.values) }
{
    places.next(0, 1)
}

// Whether the least end has this key.
fn is_least(places: &MarkedList<Option<Poll>>, key: Key) -> bool
    ensures { result ≡ true → least_of places.now.marks ≡ Some key }
{
    match places.least() {
        None => false,
        Some(least) => key.cmp(&least).is_eq(),
    }
}

// The place of the first poll that ends by this key, found by a scan.
fn first_ending(places: &[Option<Poll>], key: Key) -> Option<usize>
    ensures { result ≡ position (place_ends_at key) places.now }
{
    places.iter().position(|place| is_ended_by(place, key))
}

// The same, at once if no poll ends before.
fn place_of_end(places: &MarkedList<Option<Poll>>, key: Key) -> Option<usize>
    requires { AreMarked end_mark places.now }
    ensures { IsPlaceOfFirst (place_ends_at key) places.now.values result }
{
    if is_least(places, key) {
        return places.place_of_least();
    }
    first_ending(places.values(), key)
}

/// The polls that wait at a site, oldest first. The first of them and the least of their ends are
/// at hand. Adding or removing one takes time logarithmic in their number. Contracts see them as a
/// list.
#[derive(Drop)]
pub struct Polls {
    places: MarkedList<Option<Poll>>,
    count: usize,
}

impl Model for Polls {
    ghost use Rattle.std.specs.Prelude.{List};
    ghost use Rattle.sqs_model.specs.Site.{Poll};
    ghost use Rattle.sim_site.specs.Marked.{AreWaiting, waiting};

    ghost Value = { List Poll };

    ghost view = { λ p. waiting p.places.values };

    ghost invariant = { λ p. AreWaiting p.places p.count };
}

impl Polls {
    /// No polls.
    pub fn new(alloc: Global) -> Polls
        ensures { result ≡ [] }
    {
        Polls {
            places: MarkedList::new(alloc),
            count: 0,
        }
    }

    /// The number of polls.
    pub fn len(&self) -> usize
        ensures { result ≡ length self.now }
    {
        self.count
    }

    /// Whether there are none.
    pub fn is_empty(&self) -> bool
        ensures { result ≡ (length self.now == 0) }
    {
        self.count == 0
    }

    /// The first poll, if there is one.
    pub fn first(&self) -> Option<Poll>
        ensures { MatchOption result (self.now ≡ []) (λ poll. self.now ≡ poll ∷ drop 1 self.now) }
    {
        let place = place_of_first(&self.places)?;
        self.places.values()[place]
    }

    /// The key of the least end.
    pub fn least_end(&self) -> &Option<Key>
        ensures { result.now ≡ least (map poll_key self.now) }
    {
        self.places.least_due()
    }

    /// Removes the first poll, if there is one.
    pub fn drop_first(&mut self)
        ensures { self.new ≡ drop 1 self.old }
    {
        let Some(place) = place_of_first(&self.places) else {
            return;
        };
        leave(&mut self.places, place);
        self.count -= 1;
        forget_empty(&mut self.places, self.count);
    }

    /// Removes the first poll that ends by this key, if there is one.
    pub fn end(&mut self, key: Key)
        ensures { self.new ≡ without (ends_at key) self.old }
    {
        let Some(place) = place_of_end(&self.places, key) else {
            return;
        };
        leave(&mut self.places, place);
        self.count -= 1;
        forget_empty(&mut self.places, self.count);
    }

    /// Adds a poll after the others. It fails if memory runs out.
    pub fn push(&mut self, poll: Poll) -> Result<(), AllocError>
        ensures { AddsOrKeeps result (self.old ++ poll ∷ []) self.old self.new }
    {
        make_room(&mut self.places)?;
        let place = Some(poll);
        self.places.push(place, &mark_of(&place))?;
        self.count += 1;
        Ok(())
    }
}
