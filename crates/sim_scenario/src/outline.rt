//! What every part of a scenario's text may refer to: all names, and who has them.
ghost use Rattle.std.specs.Prelude.{◌≡◌, ◌+◌, ◌≤◌, ◌++◌, [], if◌then◌else◌, nat_le, IfOk, OnOk, map, length};
ghost use Rattle.std.specs.List.{enumerate_from, sum, zip};
ghost use Rattle.toml.specs.View.{view};
ghost use Rattle.sqs_formats.specs.Keys.{text_in};
ghost use Rattle.sqs_formats.specs.Actors.{tasks_at};
ghost use Rattle.sqs_formats.specs.Outline.{is_scaler, scaler_text, scalers_from};
ghost use Rattle.sim_scenario.specs.Naming.{all_names as the_all_names, names_before_tasks};

use crate::copies::{copies_before, copies_within, push_names_taken, total_beside};
use crate::names::is_fifo;
use crate::roster::Roster;
use crate::section::{member, text_when};
use sqs_formats::{Home, HomeTask, HomeTasks, ScalerText};
use sqs_message::Text;
use std::alloc::{AllocError, Global};
use std::marker::Model;
use toml::Value;

/// How many actors and tasks there may be.
const MOST_AGENTS: usize = 10_000;

/// The texts that are given as names, well-formed or not. All names are in the order of the text,
/// behind that of an actor those of its copies. Agents are numbered: queues, then the first of each
/// actor's copies, then all other copies, then tasks.
#[derive(Drop)]
pub(crate) struct Outline {
    version: u64,
    names: Roster,
    queue_count: usize,
    /// The number of copies of each actor.
    copies: Vec<u64>,
    /// How many copies the actors before each have.
    earlier_copies: Vec<usize>,
    /// The place of the first task's name among all names.
    first_task_place: usize,
    task_homes: Vec<Text>,
    dead_letters: Roster,
    scalers: Vec<ScalerText>,
}

impl Model for Outline {
    ghost use Rattle.std.specs.Prelude.{◌≡◌, drop, length, take};
    ghost use Rattle.sqs_formats.specs.Outline.{Outline};
    ghost use Rattle.sim_scenario.specs.Counted.{AreCounted, copies_before};

    ghost Value = { Outline };

    ghost view = { λ o. record { version = o.version; names = o.names; queues = take o.queue_count o.names; copies = o.copies.items; tasks = drop o.first_task_place o.names; task_homes = o.task_homes.items; dead_letters = o.dead_letters; scalers = o.scalers.items } };

    ghost invariant = { λ o. record { counted : AreCounted o.queue_count o.copies.items o.first_task_place (length o.names); before : o.earlier_copies.items ≡ copies_before o.copies.items } };
}

/// The text at a key of an item, or none.
pub(crate) fn text_in<'a>(item: &'a Value, key: &str) -> &'a str
    ensures { result.now ≡ text_in key.now (view item.now) }
{
    match item.as_table() {
        None => "",
        Some(table) => text_when(member(table, key)),
    }
}

/// Appends the texts at a key of some items to other texts.
fn push_texts(
    alloc: Global,
    texts: &mut Vec<Text>,
    items: &[Value],
    key: &str,
) -> Result<(), AllocError>
    ensures { OnOk result
        (texts.new.items ≡ texts.old.items ++ map (text_in key.now) (map view items.now)) }
{
    for item in items {
        let bytes = text_in(item, key).as_bytes().to_vec(alloc)?;
        texts.push(Text::new(bytes))?;
    }
    Ok(())
}

/// The texts at a key of some items.
fn texts(alloc: Global, items: &[Value], key: &str) -> Result<Vec<Text>, AllocError>
    ensures { IfOk result (λ v. v.items ≡ map (text_in key.now) (map view items.now)) }
{
    let mut texts = Vec::with_capacity(alloc, items.len())?;
    push_texts(alloc, &mut texts, items, key)?;
    Ok(texts)
}

/// All names, in the order of the text, and the place of the first task's among them.
fn all_names(
    alloc: Global,
    queues: &[Value],
    actors: &[Value],
    copies: &[u64],
    tasks: &[Value],
) -> Result<(Vec<Text>, usize), AllocError>
    requires same { length copies.now ≡ length actors.now }
    requires few { sum copies.now ≤ 32000 }
    ensures names { IfOk result (λ n. n.0.items
        ≡ the_all_names queues.now actors.now copies.now tasks.now) }
    ensures place { IfOk result (λ n. n.1
        ≡ length (names_before_tasks queues.now actors.now copies.now)) }
{
    let mut names = texts(alloc, queues, "name")?;
    push_names_taken(alloc, &mut names, actors, copies)?;
    let first_task_place = names.len();
    push_texts(alloc, &mut names, tasks, "name")?;
    Ok((names, first_task_place))
}

/// The move tasks that name a queue as theirs, with their agent numbers, which begin at that of the
/// first task.
fn tasks_at(
    alloc: Global,
    names: &[Text],
    homes: &[Text],
    first: usize,
    home: &[u8],
) -> Result<Vec<HomeTask>, AllocError>
    requires { first + length names.now ≤ 32000 }
    ensures { IfOk result
        (λ v. v.items ≡ tasks_at home.now (enumerate_from first (zip names.now homes.now))) }
{
    let mut tasks = Vec::new(alloc);
    let count = names.len().min(homes.len());
    for i in 0..count {
        if homes[i].as_bytes() != home {
            continue;
        }
        let name = names[i].copy(alloc)?;
        let number = (first + i) as u32;
        tasks.push(HomeTask { name, number })?;
    }
    Ok(tasks)
}

/// Whether an actor is given as a scaler.
fn is_scaler(actor: &Value) -> bool
    ensures { result ≡ is_scaler (view actor.now) }
{
    text_in(actor, "kind") == "scaler"
}

/// The scaler of a number by its text.
fn scaler_text(alloc: Global, number: u32, actor: &Value) -> Result<ScalerText, AllocError>
    ensures { IfOk result (λ s. s ≡ scaler_text number (view actor.now)) }
{
    let name = Text::new(text_in(actor, "name").as_bytes().to_vec(alloc)?);
    let home = Text::new(text_in(actor, "queue").as_bytes().to_vec(alloc)?);
    Ok(ScalerText { number, name, home })
}

/// The scalers among some actors, with their agent numbers, the first of which is `first`.
fn scalers_from(
    alloc: Global,
    first: usize,
    actors: &[Value],
) -> Result<Vec<ScalerText>, AllocError>
    requires { first + length actors.now ≤ 32000 }
    ensures { IfOk result (λ v. v.items ≡ scalers_from first (map view actors.now)) }
{
    let mut scalers = Vec::new(alloc);
    for (i, actor) in actors.iter().enumerate() {
        if is_scaler(actor) {
            scalers.push(scaler_text(alloc, (first + i) as u32, actor)?)?;
        }
    }
    Ok(scalers)
}

/// The scalers of a version, which are known from version 3 on.
fn scalers_of(
    alloc: Global,
    version: u64,
    first: usize,
    actors: &[Value],
) -> Result<Vec<ScalerText>, AllocError>
    requires { first + length actors.now ≤ 32000 }
    ensures { IfOk result (λ v. v.items
        ≡ (if nat_le 3 version then scalers_from first (map view actors.now) else [])) }
{
    if version < 3 {
        return Ok(Vec::new(alloc));
    }
    scalers_from(alloc, first, actors)
}

impl Outline {
    ghost use Rattle.std.specs.Prelude.{◌≡◌, ◌+◌, ◌<◌, ◌≤◌, IfOk, get_or, map, length};
    ghost use Rattle.toml.specs.View.{view};
    ghost use Rattle.sqs_formats.specs.Keys.{is_among};
    ghost use Rattle.sqs_formats.specs.Outline.{actor_place, first_task, is_fresh, kind_at, outline_of, queue_number, queue_text, scaler_number, second_copy, task_place};
    ghost use Rattle.sqs_formats.specs.Actors.{home_of};
    ghost use Rattle.sim_scenario.specs.Naming.{outline_in};

    /// The outline of three lists of items.
    pub(crate) fn new(
        alloc: Global,
        version: u64,
        queues: &[Value],
        actors: &[Value],
        tasks: &[Value],
    ) -> Result<Outline, AllocError>
        requires { length queues.now + length actors.now + length tasks.now ≤ 11000 }
        ensures { IfOk result (λ o. o ≡ outline_in version queues.now actors.now tasks.now) }
    {
        let room = MOST_AGENTS.saturating_sub(actors.len() + tasks.len());
        let copies = copies_within(alloc, version, room as u64, actors)?;
        let earlier_copies = copies_before(alloc, copies.as_slice())?;
        let (names, first_task_place) = all_names(alloc, queues, actors, copies.as_slice(), tasks)?;
        let task_homes = texts(alloc, tasks, "queue")?;
        let dead_letters = texts(alloc, queues, "dead_letter")?;
        let scalers = scalers_of(alloc, version, queues.len(), actors)?;
        let names = Roster::new(alloc, names)?;
        let dead_letters = Roster::new(alloc, dead_letters)?;
        Ok(Outline {
            version,
            names,
            queue_count: queues.len(),
            copies,
            earlier_copies,
            first_task_place,
            task_homes,
            dead_letters,
            scalers,
        })
    }

    /// The version of the text.
    pub(crate) fn version(&self) -> u64
        ensures { result ≡ self.now.version }
    {
        self.version
    }

    /// The place of an actor's name among all names.
    pub(crate) fn actor_place(&self, index: usize) -> usize
        requires { index < 11000 }
        ensures { result ≡ actor_place self.now index }
    {
        match self.earlier_copies.get(index) {
            Some(before) => self.queue_count + index + *before,
            None => self.first_task_place + (index - self.copies.len()),
        }
    }

    /// The place of a task's name among all names.
    pub(crate) fn task_place(&self, index: usize) -> usize
        requires { index < 11000 }
        ensures { result ≡ task_place self.now index }
    {
        self.first_task_place + index
    }

    /// The number of copies of an actor; 0 if it is no copy, or if its copies have no room.
    pub(crate) fn copies(&self, index: usize) -> u64
        ensures { result ≡ get_or self.now.copies index 0 }
    {
        self.copies.get(index).copied().unwrap_or(0)
    }

    /// The number of the first task.
    fn first_task(&self) -> usize
        ensures number { result ≡ first_task self.now }
        ensures few { result + length self.now.tasks ≤ 32000 }
    {
        self.queue_count + self.copies.len() + total_beside(self.copies.as_slice())
    }

    /// Whether no name before a place is this one.
    pub(crate) fn is_fresh(&self, place: usize, name: &[u8]) -> bool
        ensures { result ≡ is_fresh self.now place name.now }
    {
        match self.names.place(name) {
            None => true,
            Some(first) => place <= first,
        }
    }

    /// The number of the queue with a name.
    pub(crate) fn queue_number(&self, name: &[u8]) -> Option<u32>
        ensures { result ≡ queue_number self.now name.now }
    {
        let number = self.names.place(name)?;
        if number < self.queue_count {
            Some(number as u32)
        } else {
            None
        }
    }

    /// Whether a queue is FIFO.
    pub(crate) fn is_fifo_at(&self, number: u32) -> bool
        ensures { result ≡ kind_at self.now number }
    {
        is_fifo(self.queue_text(number))
    }

    /// Whether a text is given as the name of a dead-letter queue.
    pub(crate) fn is_dead_letter(&self, name: &[u8]) -> bool
        ensures { result ≡ is_among self.now.dead_letters name.now }
    {
        self.dead_letters.has(name)
    }

    /// The name of a queue; empty if there is none.
    fn queue_text(&self, number: u32) -> &[u8]
        ensures { result.now ≡ queue_text self.now number }
    {
        match self.names.as_slice()[..self.queue_count].get(number as usize) {
            None => &[],
            Some(name) => name.as_bytes(),
        }
    }

    /// What a script's reader needs of a queue: its kind, and the move tasks that name it as
    /// theirs.
    pub(crate) fn home(&self, alloc: Global, number: u32) -> Result<Home, AllocError>
        ensures { IfOk result (λ h. h ≡ home_of self.now number) }
    {
        let is_fifo = self.is_fifo_at(number);
        let name = self.queue_text(number);
        let first = self.first_task();
        let tasks = tasks_at(
            alloc,
            &self.names.as_slice()[self.first_task_place..],
            &self.task_homes,
            first,
            name,
        )?;
        Ok(Home {
            is_fifo,
            tasks: HomeTasks::new(tasks),
        })
    }

    /// The number of the scaler of a name at a queue.
    pub(crate) fn scaler_number(&self, home: u32, name: &[u8]) -> Option<u32>
        ensures { result ≡ scaler_number self.now home name.now }
    {
        let home = self.queue_text(home);
        self.scalers
            .iter()
            .find(|scaler| scaler.name.as_bytes() == name && scaler.home.as_bytes() == home)
            .map(|scaler| scaler.number)
    }

    /// The number that the second copy of an actor has, or would have.
    pub(crate) fn second_copy(&self, index: usize) -> u32
        ensures { result ≡ second_copy self.now index }
    {
        let earlier = index.min(self.copies.len());
        (self.queue_count + self.copies.len() + total_beside(&self.copies[..earlier])) as u32
    }
}
