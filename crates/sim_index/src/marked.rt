//! Values with their marks.
ghost use Rattle.std.specs.Prelude.{◌≡◌, ◌+◌, ◌*◌, ◌^◌, ◌<◌, ◌≤◌, ◌++◌, ◌∷◌, [], IfOk, if◌then◌else◌, IfSome, IsOk, MatchOption, None, OnErr, OnOk, false, length, set, slice_index_or, take, true, vec_capacity, vec_len, ℕ};
ghost use Rattle.std.specs.Borrow.{sem};
ghost use Rattle.std.specs.Fn.{FnReturnsAt};
ghost use Rattle.std.specs.List.{AllZip, items_where_true, list_any};
ghost use Rattle.sim_index.specs.Marks.{IsNextIn, IsPlaceOfLeast, IsPower, NoneIn, least_of, meets, no_mark, node};
ghost use Rattle.sim_index.specs.Marked.{IsPicked, IsPickedBy};

use crate::mark::{Mark, NO_MARK, mark_at};
use crate::marks::Marks;
use crate::picking::{count, gather};
use sim_clock::Key;
use std::alloc::{AllocError, Global};
use std::marker::Model;

// A tree of these marks, with at least `width` places and twice as many as there are marks.
fn tree_of(alloc: Global, width: usize, marks: &[Mark]) -> Result<Marks, AllocError>
    requires { length marks.now ≤ width }
    ensures marks { IfOk result (λ m. (i : ℕ) → node m i ≡ node marks.now i) }
    ensures more { IfOk result (λ m. length marks.now < length m) }
    ensures wide { IfOk result (λ m. width ≤ length m) }
    ensures twice { IfOk result (λ m. 2 * length marks.now ≤ length m) }
{
    if 1 << 60 <= width {
        return Err(AllocError);
    }
    let places = (2 * marks.len()).max(width).next_power_of_two();
    Marks::of(alloc, places, marks)
}

// A tree of these marks with as few places as possible. It allocates nothing if there are no marks.
fn close_tree_of(alloc: Global, marks: &[Mark]) -> Result<Marks, AllocError>
    ensures marks { IfOk result (λ m. (i : ℕ) → node m i ≡ node marks.now i) }
    ensures room { IfOk result (λ m. length marks.now ≤ length m) }
{
    if marks.is_empty() {
        return Ok(Marks::new(alloc));
    }
    if 1 << 60 <= marks.len() {
        return Err(AllocError);
    }
    Marks::of(alloc, marks.len().next_power_of_two(), marks)
}

// What a closure returns for each value.
fn answers<T, A: Drop, F: Fn(&T) -> A>(
    alloc: Global,
    values: &[T],
    answer: F,
) -> Result<Vec<A>, AllocError>
    requires { F.IsAlwaysCallable answer }
    ensures told { IfOk result (λ told. AllZip (FnReturnsAt F.Fn answer) values.now told.items) }
    ensures length { IfOk result (λ told. length told.items ≡ length values.now) }
{
    let mut told = Vec::with_capacity(alloc, values.len())?;
    for value in values {
        told.push_reserved(answer(value));
    }
    Ok(told)
}

// Keeps the values for which the closure returned `true`.
fn pick<T: Drop>(values: &mut Vec<T>, told: &[bool])
    requires { length told.now ≡ length values.old.items }
    ensures items { values.new.items ≡ items_where_true told.now values.old.items }
    ensures length { vec_len values.new ≤ vec_len values.old }
    ensures capacity { vec_capacity values.new ≡ vec_capacity values.old }
{
    let kept = gather(values, told);
    values.truncate(kept);
}

// The least number of places after values leave, so that not every push makes the list be scanned
// again.
const LEAST_PLACES: usize = 8;

// A tree of the marks for which the closure returned `true`, of the list that has these leaves.
fn picked_tree(alloc: Global, leaves: &[Mark], told: &[bool]) -> Result<Marks, AllocError>
    requires { length told.now ≤ length leaves.now }
    ensures marks { IfOk result (λ m.
        (i : ℕ)
        → node m i ≡ node (items_where_true told.now (take (length told.now) leaves.now)) i) }
    ensures more { IfOk result
        (λ m. length (items_where_true told.now (take (length told.now) leaves.now)) < length m) }
    ensures wide { IfOk result (λ m. length leaves.now ≤ length m) }
{
    let mut marks = Vec::from_slice(alloc, &leaves[..told.len()])?;
    pick(&mut marks, told);
    let width = if marks.len() < told.len() {
        leaves.len().max(LEAST_PLACES)
    } else {
        leaves.len()
    };
    tree_of(alloc, width, &marks)
}

/// Values at the places of a list, each with its mark in a tree beside them. The least entry due,
/// its first place and the next place with a flag are returned without a scan of the values.
/// Contracts see the values, the mark of each, and whether there is certainly room for one more.
#[derive(Drop)]
pub struct MarkedList<T> {
    values: Vec<T>,
    tree: Marks,
    alloc: Global,
}

impl<T> Model for MarkedList<T> {
    ghost use Rattle.std.specs.Prelude.{length, take, vec_capacity, vec_len};
    ghost use Rattle.sim_index.specs.Marked.{HasLeaves, Marked, is_ready};

    ghost Value = { Marked T };

    ghost view = { λ l. record { values = l.values.items; marks = take (length l.values.items) l.tree; ready = is_ready (vec_len l.values) (vec_capacity l.values) (length l.tree) } };

    ghost invariant = { λ l. HasLeaves (length l.values.items) l.tree };
}

impl<T> MarkedList<T> {
    ghost use Rattle.sim_index.specs.Lends.{LendsValue};

    /// An empty list. It allocates nothing.
    pub fn new(alloc: Global) -> MarkedList<T>
        ensures { result ≡ record { values = []; marks = []; ready = false } }
    {
        MarkedList {
            values: Vec::new(alloc),
            tree: Marks::new(alloc),
            alloc,
        }
    }

    /// These values, each with the mark that the closure returns for it.
    ///
    /// # Errors
    ///
    /// `AllocError` if memory runs out.
    pub fn of<F: Fn(&T) -> Mark>(
        alloc: Global,
        values: Vec<T>,
        mark_of: F,
    ) -> Result<MarkedList<T>, AllocError>
    where
        T: Drop,
        requires { F.IsAlwaysCallable mark_of }
        ensures values { IfOk result (λ list. list.values ≡ values.items) }
        ensures marks { IfOk result
            (λ list. AllZip (FnReturnsAt F.Fn mark_of) values.items list.marks) }
    {
        let marks = answers(alloc, &values, mark_of)?;
        let tree = close_tree_of(alloc, &marks)?;
        Ok(MarkedList {
            values,
            tree,
            alloc,
        })
    }

    /// The values, each of which has a mark.
    pub fn values(&self) -> &[T]
        ensures values { result.now ≡ self.now.values }
        ensures marks { length self.now.marks ≡ length self.now.values }
    {
        &self.values
    }

    /// The value at a place, to be changed. Its mark stays.
    pub fn value_mut(&mut self, place: usize) -> &mut T
        requires { place < length self.old.values }
        ensures* writes_back { sem 𝓛 (LendsValue T.row self.entry place result) }
        ensures value { result.now ≡ slice_index_or self.old.values place result.now }
    {
        &mut self.values[place]
    }

    /// The mark of the value at a place; past the end, that of an empty place.
    pub fn mark_at(&self, place: usize) -> Mark
        ensures { result ≡ node self.now.marks place }
    {
        mark_at(self.tree.leaves(), place)
    }

    /// Sets the mark of the value at a place.
    pub fn set_mark(&mut self, place: usize, mark: &Mark)
        requires { place < length self.old.values }
        ensures { self.new ≡ record self.old { marks = set self.old.marks place mark.now } }
    {
        self.tree.put(place, mark);
    }

    /// The key of the least entry due.
    pub fn least(&self) -> Option<Key>
        ensures { result ≡ least_of self.now.marks }
    {
        *self.tree.least()
    }

    /// The key of the least entry due, where it stands.
    pub fn least_due(&self) -> &Option<Key>
        ensures { result.now ≡ least_of self.now.marks }
    {
        self.tree.least()
    }

    /// The first place at which the least entry is due; none if nothing is due.
    pub fn place_of_least(&self) -> Option<usize>
        ensures first { MatchOption result (least_of self.now.marks ≡ None)
            (IsPlaceOfLeast self.now.marks) }
        ensures there { IfSome result (λ place. place < length self.now.values) }
    {
        self.tree.place_of_least()
    }

    /// Whether the mark of any value has one of these flags.
    pub fn has_on(&self, flags: u32) -> bool
        ensures { result ≡ list_any (meets flags) self.now.marks }
    {
        self.tree.has_on(flags)
    }

    /// The first place at or after `from` whose mark has one of these flags.
    pub fn next(&self, from: usize, flags: u32) -> Option<usize>
        requires { from ≤ length self.now.values }
        ensures first { MatchOption result
            (NoneIn self.now.marks flags from (length self.now.marks))
            (IsNextIn self.now.marks flags from (length self.now.marks)) }
        ensures there { IfSome result (λ place. place < length self.now.values) }
    {
        self.tree.next(from, flags)
    }

    /// Whether there is certainly room for one more value.
    pub fn is_ready(&self) -> bool
        ensures { result ≡ self.now.ready }
    {
        let count = self.values.len();
        count < self.values.capacity() && count < self.tree.leaves().len()
    }

    /// Makes room for one more value, so that its push succeeds.
    ///
    /// # Errors
    ///
    /// `AllocError` if memory runs out; nothing changes then.
    pub fn reserve(&mut self) -> Result<(), AllocError>
        ensures ready { OnOk result (self.new.ready ≡ true) }
        ensures values { self.new.values ≡ self.old.values }
        ensures marks { self.new.marks ≡ self.old.marks }
        ensures unchanged { OnErr result (self.new ≡ self.old) }
        ensures succeeds { self.old.ready ≡ true → IsOk result }
    {
        self.values.reserve(1)?;
        let width = self.tree.leaves().len();
        if self.values.len() < width {
            return Ok(());
        }
        let tree = tree_of(self.alloc, width, self.tree.leaves())?;
        self.tree = tree;
        Ok(())
    }

    /// Appends a value with its mark. It succeeds if there is room.
    ///
    /// # Errors
    ///
    /// `AllocError` if memory runs out; nothing changes then.
    pub fn push(&mut self, value: T, mark: &Mark) -> Result<(), AllocError>
    where
        T: Drop,
        ensures values { OnOk result (self.new.values ≡ self.old.values ++ value ∷ []) }
        ensures marks { OnOk result (self.new.marks ≡ self.old.marks ++ mark.now ∷ []) }
        ensures unchanged { OnErr result (self.new ≡ self.old) }
        ensures succeeds { self.old.ready ≡ true → IsOk result }
        ensures fits { OnOk result (length self.new.values < 2 ^ 64) }
    {
        self.reserve()?;
        self.tree.put(self.values.len(), mark);
        self.values.push_reserved(value);
        Ok(())
    }

    // Keeps the values for which `told` has `true` and their marks, in the tree that there is. It
    // changes nothing and returns `false` if they would take more than half of its places, or if it
    // has too few.
    fn retain_here(&mut self, told: &[bool]) -> Result<bool, AllocError>
    where
        T: Drop,
        requires { length told.now ≡ length self.old.values }
        ensures picked { IfOk result (λ done. done ≡ true → IsPickedBy told.now self.old self.new) }
        ensures ready { IfOk result (λ done. done ≡ true → self.new.ready ≡ true) }
        ensures left { IfOk result (λ done. done ≡ false → self.new ≡ self.old) }
        ensures unchanged { OnErr result (self.new ≡ self.old) }
    {
        let width = self.tree.leaves().len();
        if width < LEAST_PLACES || width / 2 < count(told) {
            return Ok(false);
        }
        self.values.reserve(width - self.values.len())?;
        pick(&mut self.values, told);
        self.tree.pick(told);
        Ok(true)
    }

    // Keeps the values for which `told` has `true` and their marks, in a new tree.
    fn retain_anew(&mut self, told: &[bool]) -> Result<(), AllocError>
    where
        T: Drop,
        requires { length told.now ≡ length self.old.values }
        ensures picked { OnOk result (IsPickedBy told.now self.old self.new) }
        ensures ready { OnOk result (self.new.ready ≡ true) }
        ensures unchanged { OnErr result (self.new ≡ self.old) }
    {
        let tree = picked_tree(self.alloc, self.tree.leaves(), told)?;
        self.values
            .reserve(tree.leaves().len() - self.values.len())?;
        pick(&mut self.values, told);
        self.tree = tree;
        Ok(())
    }

    /// Keeps the values for which the closure returns `true`, in their order, with their marks, and
    /// makes room for one more. There are then at least twice as many places as values, and no
    /// fewer than before.
    ///
    /// # Errors
    ///
    /// `AllocError` if memory runs out; nothing changes then.
    pub fn retain<F: Fn(&T) -> bool>(&mut self, keeps: F) -> Result<(), AllocError>
    where
        T: Drop,
        requires { F.IsAlwaysCallable keeps }
        ensures picked { OnOk result (IsPicked (FnReturnsAt F.Fn keeps) self.old self.new) }
        ensures ready { OnOk result (self.new.ready ≡ true) }
        ensures unchanged { OnErr result (self.new ≡ self.old) }
    {
        let told = answers(self.alloc, &self.values, keeps)?;
        if self.retain_here(&told)? {
            return Ok(());
        }
        self.retain_anew(&told)
    }

    /// Removes all values, none of whose marks may have a due key or a flag. It does not scan the
    /// places.
    pub fn clear(&mut self)
    where
        T: Drop,
        requires { (i : ℕ) → node self.old.marks i ≡ no_mark }
        ensures values { self.new.values ≡ [] }
        ensures marks { self.new.marks ≡ [] }
        ensures ready { self.old.ready ≡ true → self.new.ready ≡ true }
    {
        self.values.clear();
    }

    /// The values, without their marks.
    pub fn into_values(self) -> Vec<T>
        ensures { result.items ≡ self.values }
    {
        self.values
    }
}
