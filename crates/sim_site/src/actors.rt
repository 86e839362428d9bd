//! The actors of a site; if there are many, with a tree of their wakes.
ghost use Rattle.std.specs.Prelude.{All, IfErr, IfOk, IfSome, MatchOption, Some, false, find, flat_map, length, map, option_map, position, true, ◌<◌, ◌≡◌, ◌≤◌};
ghost use Rattle.std.specs.List.Sorted.{IsNonDecreasingBy};
ghost use Rattle.sim_actor.specs.Lives.{answer_of};
ghost use Rattle.sim_clock.specs.Order.{least};
ghost use Rattle.sqs_model.specs.Answers.{most_count};
ghost use Rattle.sqs_model.specs.Counts.{actor_count, greatest};
ghost use Rattle.sqs_model.specs.Dues.{actor_dues};
ghost use Rattle.sim_clock.specs.Places.{IsAbsent, Stands};
ghost use Rattle.sqs_model.specs.Site.{is_actor};
ghost use Rattle.sqs_model.specs.Step.{standing_of};
ghost use Rattle.sim_engine.specs.Limits.{StopsWhere};
ghost use Rattle.sim_site.specs.Kept.{HasShortWaits, IsCount, WaitsShortly};
ghost use Rattle.sim_index.specs.Marked.{AreMarked};
ghost use Rattle.sim_site.specs.Marked.{AreTurnedTo, StayMarkedBut, brought_up, wake_mark};
ghost use Rattle.sim_site.specs.Turns.{HasAllPolls, PassesTurn, Polled, Turned, TurnedBy};

use crate::agents::wake_of;
use crate::dues::least_wake_of;
use sim_actor::{Actor, FollowUp, Reply};
use sim_clock::{Key, Refusal};
use sim_index::{Mark, MarkedList};
use sqs_model::{Act, Answer, Role, Standing};
use sqs_redrive::Outbound;
use std::alloc::{AllocError, Global};
use std::marker::Model;

// The mark of an actor: the key of its wake.
fn mark_of(actor: &Actor) -> Mark
    ensures { result ≡ wake_mark actor.now }
{
    Mark {
        due: wake_of(actor),
        flags: 0,
    }
}

// Actors, each marked with its wake. It fails if memory runs out.
fn marked(alloc: Global, actors: Vec<Actor>) -> Result<MarkedList<Actor>, AllocError>
    ensures actors { IfOk result (λ list. list.values ≡ actors.items) }
    ensures marked { IfOk result (AreMarked wake_mark) }
{
    MarkedList::of(alloc, actors, |actor| mark_of(actor))
}

// Whether the numbers of actors never fall from one to the next.
fn are_in_order(actors: &[Actor]) -> bool
    ensures { result ≡ true → IsNonDecreasingBy (λ a. a.number) actors.now }
{
    for i in 1..actors.len() {
        if actors[i].number() < actors[i - 1].number() {
            return false;
        }
    }
    true
}

// The index of the first actor with a number, found by a scan.
fn first_actor(actors: &[Actor], number: u32) -> Option<usize>
    ensures { result ≡ position (is_actor number) actors.now }
{
    actors.iter().position(|a| a.number() == number)
}

// The same, among actors whose numbers never fall.
fn first_in_order(actors: &[Actor], number: u32) -> Option<usize>
    requires { IsNonDecreasingBy (λ a. a.number) actors.now }
    ensures { result ≡ position (is_actor number) actors.now }
{
    let place = actors.partition_point(|a| a.number() < number);
    let actor = actors.get(place)?;
    if actor.number() == number {
        Some(place)
    } else {
        None
    }
}

// Whether the actor at `place` is the first with a number, among actors whose numbers never fall.
fn is_first_with(actors: &[Actor], place: usize, number: u32) -> bool
    requires within { place < length actors.now }
    requires order { IsNonDecreasingBy (λ a. a.number) actors.now }
    ensures { result ≡ true → position (is_actor number) actors.now ≡ Some place }
{
    if actors[place].number() != number {
        return false;
    }
    place == 0 || actors[place - 1].number() < number
}

// The index of the actor with a number if the numbers from it to the last actor's follow one
// another, as those of the consumers of a queue do.
fn place_before_last(actors: &[Actor], number: u32) -> Option<usize>
    ensures within { IfSome result (λ place. place < length actors.now) }
{
    let last = actors.last()?.number();
    let behind = last.checked_sub(number)? as usize;
    (actors.len() - 1).checked_sub(behind)
}

// The same as `first_in_order`, of a number that may stand where `place_before_last` says.
fn near_or_in_order(actors: &[Actor], number: u32) -> Option<usize>
    requires { IsNonDecreasingBy (λ a. a.number) actors.now }
    ensures { result ≡ position (is_actor number) actors.now }
{
    if let Some(place) = place_before_last(actors, number) {
        if is_first_with(actors, place, number) {
            return Some(place);
        }
    }
    first_in_order(actors, number)
}

// The index of the first actor with a number, among actors whose numbers never fall. It tries the
// one that wakes next before it searches.
fn found_in_order(actors: &MarkedList<Actor>, number: u32) -> Option<usize>
    requires { IsNonDecreasingBy (λ a. a.number) actors.now.values }
    ensures { result ≡ position (is_actor number) actors.now.values }
{
    if let Some(place) = actors.place_of_least() {
        if is_first_with(actors.values(), place, number) {
            return Some(place);
        }
    }
    near_or_in_order(actors.values(), number)
}

// Updates the mark of the actor that was called last, if there is one.
fn bring_up(actors: &mut MarkedList<Actor>, told: Option<usize>)
    requires { IfSome told (λ place. place < length actors.old.values) }
    ensures { actors.new ≡ brought_up told actors.old }
{
    if let Some(place) = told {
        let mark = mark_of(&actors.values()[place]);
        actors.set_mark(place, &mark);
    }
}

// Updates all marks but that of the actor at `place`, which is called next. Marks of few actors are
// not kept.
fn turn_to(actors: &mut MarkedList<Actor>, are_few: bool, told: Option<usize>, place: usize)
    requires told { IfSome told (λ place. place < length actors.old.values) }
    requires marked { are_few ≡ false → AreMarked wake_mark (brought_up told actors.old) }
    ensures { AreTurnedTo are_few place actors.old actors.new }
{
    if !are_few && told != Some(place) {
        bring_up(actors, told);
    }
}

// The actor at `place` decides what it does on a reply. Its mark is not updated.
fn answered_at(
    actors: &mut MarkedList<Actor>,
    place: usize,
    number: u32,
    now: u64,
    reply: Reply,
) -> Result<FollowUp, Refusal>
    requires place { Stands (is_actor number) actors.old.values place }
    requires moment { now ≤ most_count }
    ensures turned { IfOk result (TurnedBy number now reply actors.old.values actors.new.values) }
    ensures settings { map (λ a. a.settings) actors.new.values
        ≡ map (λ a. a.settings) actors.old.values }
    ensures stops { IfErr result (StopsWhere (PassesTurn number now
        (answer_of reply) actors.old.values)) }
    ensures marked { StayMarkedBut place actors.old actors.new }
    ensures numbers { map (λ a. a.number) actors.new.values
        ≡ map (λ a. a.number) actors.old.values }
{
    actors.value_mut(place).answered(now, reply)
}

// Counts one more waiting poll of the actor at `place`. Returns how many it had before. Its wake
// stays.
fn counted_at(actors: &mut MarkedList<Actor>, place: usize, number: u32) -> Result<u64, Refusal>
    requires place { Stands (is_actor number) actors.old.values place }
    ensures polled { IfOk result
        (λ polls. Polled number polls actors.old.values actors.new.values) }
    ensures settings { map (λ a. a.settings) actors.new.values
        ≡ map (λ a. a.settings) actors.old.values }
    ensures stops { IfErr result (StopsWhere (HasAllPolls number actors.old.values)) }
    ensures marks { actors.new.marks ≡ actors.old.marks }
    ensures wakes { map wake_mark actors.new.values ≡ map wake_mark actors.old.values }
    ensures numbers { map (λ a. a.number) actors.new.values
        ≡ map (λ a. a.number) actors.old.values }
{
    let actor = actors.value_mut(place);
    let polls = actor.polls();
    actor.polled()?;
    Ok(polls)
}

// The greatest count of some actors.
fn greatest_of(actors: &[Actor]) -> u64
    ensures { IsCount result (greatest (map actor_count actors.now)) }
{
    let mut most = 0;
    for actor in actors {
        most = actor.greatest_count().max(most);
    }
    most
}

// So many actors are looked at one by one in less time than a tree of their wakes takes.
const FEW: usize = 6;

/// The actors of a site. The next wake is at hand. A change of one actor takes time logarithmic in
/// their number, and so does a search by number if the numbers never fall. An actor that is called
/// several times in a row is searched for and marked once. Few actors have no marks: their wakes are
/// looked at one by one. Contracts see the actors as a list.
#[derive(Drop)]
pub struct Actors {
    list: MarkedList<Actor>,
    is_in_order: bool,
    // Whether they are so few that their marks are not kept.
    are_few: bool,
    // The index of the actor that was called last, whose mark is not updated yet, if there is one.
    told: Option<usize>,
}

impl Model for Actors {
    ghost use Rattle.std.specs.Prelude.{List};
    ghost use Rattle.sqs_model.specs.Actor.{Actor};
    ghost use Rattle.sim_site.specs.Marked.{AreFound};

    ghost Value = { List Actor };

    ghost view = { λ a. a.list.values };

    ghost invariant = { λ a. AreFound a.list a.is_in_order a.are_few a.told };
}

impl Actors {
    /// These actors. It fails if memory runs out.
    pub fn of(alloc: Global, list: Vec<Actor>) -> Result<Actors, AllocError>
        ensures { IfOk result (λ actors. actors ≡ list.items) }
    {
        let is_in_order = are_in_order(&list);
        let are_few = list.len() <= FEW;
        let list = marked(alloc, list)?;
        Ok(Actors {
            list,
            is_in_order,
            are_few,
            told: None,
        })
    }

    /// The greatest count of any of them.
    pub fn greatest_count(&self) -> u64
        ensures { IsCount result (greatest (map actor_count self.now)) }
    {
        greatest_of(self.list.values())
    }

    // The index of the first actor with a number, by a search. It is apart from `place_of`, which
    // follows each act of an actor.
    #[inline(never)]
    fn search(&self, number: u32) -> Option<usize>
        ensures { MatchOption result (IsAbsent (is_actor number) self.now)
            (Stands (is_actor number) self.now) }
    {
        if self.is_in_order && !self.are_few {
            found_in_order(&self.list, number)
        } else {
            first_actor(self.list.values(), number)
        }
    }

    /// The index of the first actor with a number; the contract says the same of the list.
    #[inline(always)]
    pub fn place_of(&self, number: u32) -> Option<usize>
        ensures { MatchOption result (IsAbsent (is_actor number) self.now)
            (Stands (is_actor number) self.now) }
    {
        if let Some(place) = self.told {
            if self.list.values()[place].number() == number {
                return Some(place);
            }
        }
        self.search(number)
    }

    /// What the actor at `place` does.
    pub fn role_at(&self, place: usize, number: u32) -> &Role
        requires { Stands (is_actor number) self.now place }
        ensures { option_map (λ a. a.settings.role) (find (is_actor number) self.now)
            ≡ Some result.now }
    {
        &self.list.values()[place].settings().role
    }

    /// What copies go by whose scaler is the actor with a number. Nothing if it is none.
    #[inline(never)]
    pub fn standing_of(&self, number: u32) -> Standing
        ensures { result ≡ standing_of (find (is_actor number) self.now) }
    {
        match self.search(number) {
            None => Standing::none(),
            Some(place) => self.list.values()[place].standing(),
        }
    }

    /// The actor at `place` decides what it does when its wake has come, by what it goes by. `now` is
    /// in milliseconds.
    ///
    /// # Errors
    ///
    /// `Memory`. `CountLimit` if the actor would count past the limit.
    pub fn woken_at(
        &mut self,
        place: usize,
        number: u32,
        now: u64,
        standing: Standing,
    ) -> Result<Act, Refusal>
        requires place { Stands (is_actor number) self.old place }
        requires moment { now ≤ most_count }
        ensures turned { IfOk result
            (λ act. Turned number now (Answer.Wake standing) act self.old self.new) }
        ensures settings { map (λ a. a.settings) self.new ≡ map (λ a. a.settings) self.old }
        ensures waits { All (λ a. HasShortWaits a.role) (map (λ a. a.settings) self.old)
            → IfOk result WaitsShortly }
        ensures stops { IfErr result (StopsWhere (PassesTurn number now
            (Answer.Wake standing) self.old)) }
    {
        turn_to(&mut self.list, self.are_few, self.told, place);
        self.told = Some(place);
        self.list.value_mut(place).woken(now, standing)
    }

    /// The actor at `place` decides what it does on a reply. `now` is in milliseconds.
    ///
    /// # Errors
    ///
    /// `Memory`. `CountLimit` if the actor would count past the limit.
    pub fn answered_at(
        &mut self,
        place: usize,
        number: u32,
        now: u64,
        reply: Reply,
    ) -> Result<FollowUp, Refusal>
        requires place { Stands (is_actor number) self.old place }
        requires moment { now ≤ most_count }
        ensures turned { IfOk result (TurnedBy number now reply self.old self.new) }
        ensures settings { map (λ a. a.settings) self.new ≡ map (λ a. a.settings) self.old }
        ensures stops { IfErr result (StopsWhere (PassesTurn number now
            (answer_of reply) self.old)) }
    {
        turn_to(&mut self.list, self.are_few, self.told, place);
        self.told = Some(place);
        answered_at(&mut self.list, place, number, now, reply)
    }

    /// Gives the actor that was called last memory for the transfers that it sends next: a list that
    /// is not used any more.
    pub fn keep_room(&mut self, room: Vec<Outbound>)
        ensures { self.new ≡ self.old }
    {
        if let Some(place) = self.told {
            self.list.value_mut(place).keep_room(room);
        }
    }

    /// Counts one more waiting poll of the actor at `place`. Returns how many it had before.
    /// `CountLimit` if that is the limit of counts.
    pub fn polled_at(&mut self, place: usize, number: u32) -> Result<u64, Refusal>
        requires place { Stands (is_actor number) self.old place }
        ensures polled { IfOk result (λ polls. Polled number polls self.old self.new) }
        ensures settings { map (λ a. a.settings) self.new ≡ map (λ a. a.settings) self.old }
        ensures stops { IfErr result (StopsWhere (HasAllPolls number self.old)) }
    {
        counted_at(&mut self.list, place, number)
    }

    /// The key of the least wake.
    pub fn least_wake(&mut self) -> Option<Key>
        ensures wake { result ≡ least (flat_map actor_dues self.old) }
        ensures same { self.new ≡ self.old }
    {
        if self.are_few {
            return least_wake_of(self.list.values());
        }
        bring_up(&mut self.list, self.told);
        self.told = None;
        self.list.least()
    }
}
