//! The tree of marks.
ghost use Rattle.std.specs.Prelude.{◌≡◌, ◌⊎◌, if◌then◌else◌, None, [], ◌*◌, ◌+◌, ◌/◌, ◌^◌, ◌%◌, ℕ, ◌<◌, ◌≤◌, drop, false, true, IfOk, IfSome, List, MatchOption, length, set, get_or, take, vec_len};
ghost use Rattle.std.specs.List.{items_where_true, list_any};
ghost use Rattle.sim_index.specs.Marks.{AreBoth, AreLeaves, ArePairs, IsBoth, IsNextIn, IsPlaceOfLeast, IsPower, IsFirstOf, IsRanked, IsTree, IsTreeBut, NoneIn, bare, beyond, least_of, meets, no_mark, no_node, node, node_in, tells, told_by};

use crate::mark::{Mark, NO_MARK, NO_RANK, is_second, rank_of};
use crate::picking::gather;
use sim_clock::Key;
use std::alloc::{AllocError, Global};
use std::marker::Model;

// What the tree keeps of some places together: the first place of the least entry due there, the
// rank of that, and the flags of all of them, as bits.
#[derive(Clone, Copy, Debug, PartialEq, Eq)]
struct Node {
    rank: u64,
    place: u32,
    flags: u32,
}

// The node of no places.
const NO_NODE: Node = Node {
    rank: 0,
    place: 0,
    flags: 0,
};

// That nothing is due.
const NOTHING_DUE: Option<Key> = None;

// How many places a tree may have.
const MOST_PLACES: usize = 1 << 32;

// The node with an index; past the end, that of no places.
fn node_at(nodes: &[Node], place: usize) -> Node
    ensures { result ≡ get_or nodes.now place no_node }
{
    if place < nodes.len() {
        nodes[place]
    } else {
        NO_NODE
    }
}

// Whether a node has one of these flags.
fn reaches(nodes: &[Node], node: usize, flags: u32) -> bool
    ensures { result ≡ tells (bare nodes.now) flags node }
{
    node_at(nodes, node).flags & flags != 0
}

// The other node of the pair that a node is in.
fn beside(node: usize) -> usize
    ensures first { node % 2 ≡ 0 → result ≡ node + 1 }
    ensures second { node % 2 ≡ 1 → result + 1 ≡ node }
{
    node ^ 1
}

// Whether the least entry due at two places, of which the first may be either one, is the other's
// and not this one's as well.
#[cold]
#[inline(never)]
fn is_others(marks: &[Mark], is_first: bool, this: u32, other: u32) -> bool
    requires this { this < length marks.now }
    requires other { other < length marks.now }
    ensures first { is_first ≡ true
        → IsFirstOf (node marks.now this).due (node marks.now other).due this other
        (if result then other else this) }
    ensures second { is_first ≡ false
        → IsFirstOf (node marks.now other).due (node marks.now this).due other this
        (if result then other else this) }
{
    let this = &marks[this as usize].due;
    let other = &marks[other as usize].due;
    if is_first {
        is_second(this, other)
    } else {
        !is_second(other, this)
    }
}

// The node of the places of two nodes together, of which the first may be either one. Unless both
// have one rank, it is found without a branch.
fn both(marks: &[Mark], is_first: bool, this: &Node, other: &Node) -> Node
    requires this { this.now.place < length marks.now }
    requires other { other.now.place < length marks.now }
    requires this_rank { IsRanked marks.now this.now }
    requires other_rank { IsRanked marks.now other.now }
    ensures first { is_first ≡ true → IsBoth marks.now this.now other.now result }
    ensures second { is_first ≡ false → IsBoth marks.now other.now this.now result }
{
    let this = *this;
    let other = *other;
    let flags = this.flags | other.flags;
    if other.rank == this.rank {
        let is_others = this.rank != NO_RANK && is_others(marks, is_first, this.place, other.place);
        return Node {
            rank: this.rank,
            place: if is_others { other.place } else { this.place },
            flags,
        };
    }
    Node {
        rank: this.rank.min(other.rank),
        place: if other.rank < this.rank {
            other.place
        } else {
            this.place
        },
        flags,
    }
}

// The first node at or after `from` that has one of these flags, in the pair that `from` is in;
// none if no such node has one.
fn next_beside(nodes: &[Node], from: usize, flags: u32) -> Option<usize>
    requires { from + 1 < 2 ^ 64 }
    ensures { MatchOption result (NoneIn (bare nodes.now) flags from (beyond from))
        (IsNextIn (bare nodes.now) flags from (beyond from)) }
{
    if reaches(nodes, from, flags) {
        return Some(from);
    }
    if from % 2 == 0 && reaches(nodes, from + 1, flags) {
        return Some(from + 1);
    }
    None
}

// The first of the two below a node that has one of these flags, or else the second.
fn first_below(nodes: &[Node], node: usize, flags: u32) -> usize
    requires { 2 * node + 1 < 2 ^ 64 }
    ensures { ((tells (bare nodes.now) flags (2 * node) ≡ true) × (result ≡ 2 * node))
        ⊎ ((tells (bare nodes.now) flags (2 * node) ≡ false) × (result ≡ 2 * node + 1)) }
{
    if reaches(nodes, 2 * node, flags) {
        2 * node
    } else {
        2 * node + 1
    }
}

// The first node at or after `from`, in the row that begins at `row`, that has one of these flags.
// The rows above it lead there.
fn next_in(nodes: &[Node], row: usize, from: usize, flags: u32) -> Option<usize>
    requires power { IsPower row }
    requires within { 2 * row ≤ length nodes.now }
    requires pairs { ArePairs (bare nodes.now) }
    requires from { row ≤ from }
    ensures { MatchOption result (NoneIn (bare nodes.now) flags from (2 * row))
        (IsNextIn (bare nodes.now) flags from (2 * row)) }
{
    if 2 * row <= from {
        return None;
    }
    if let Some(node) = next_beside(nodes, from, flags) {
        return Some(node);
    }
    if row == 1 {
        return None;
    }
    match next_in(nodes, row / 2, from / 2 + 1, flags) {
        None => None,
        Some(node) => Some(first_below(nodes, node, flags)),
    }
}

// The first leaf that has one of these flags, if the first node has one.
fn first_told(nodes: &[Node], width: usize, flags: u32) -> usize
    requires pairs { ArePairs (bare nodes.now) }
    requires power { IsPower width }
    requires within { 2 * width ≤ length nodes.now }
    requires told { tells (bare nodes.now) flags 1 ≡ true }
    ensures { IsNextIn (bare nodes.now) flags width (2 * width) result }
{
    let mut node = 1;
    while node < width {
        node = first_below(nodes, node, flags);
    }
    node
}

// In a tree of more places it is worth a test whether the nodes further up stay as they are.
const MANY_PLACES: usize = 256;

// Recomputes the nodes above the leaf of a place whose mark is new. In a large tree it stops at the
// first node that is unchanged and refers to another place.
#[inline(never)]
fn mend(marks: &[Mark], nodes: &mut [Node], leaf: usize, place: u32)
    requires tree { IsTreeBut marks.now nodes.old place }
    requires leaf { leaf ≡ length marks.now + place }
    ensures { IsTree marks.now nodes.new }
{
    let mut node = leaf;
    let mut below = nodes[leaf];
    while 1 < node {
        let both = both(marks, node % 2 == 0, &below, &nodes[beside(node)]);
        node /= 2;
        if MANY_PLACES < marks.len() && both.place != place && nodes[node] == both {
            return;
        }
        nodes[node] = both;
        below = both;
    }
}

// Writes the nodes above the places of a tree.
fn write_above(marks: &[Mark], nodes: &mut Vec<Node>)
    requires { AreLeaves marks.now nodes.old.items }
    ensures leaves { AreLeaves marks.now nodes.new.items }
    ensures pairs { AreBoth marks.now nodes.new.items }
{
    for i in (1..marks.len()).rev() {
        let both = both(marks, true, &nodes[2 * i], &nodes[2 * i + 1]);
        nodes[i] = both;
    }
}

// Empties the places from one on.
fn empty_from(marks: &mut [Mark], from: usize)
    requires { from ≤ length marks.old }
    ensures before { take from marks.new ≡ take from marks.old }
    ensures behind { (i : ℕ) → from ≤ i → node marks.new i ≡ no_mark }
{
    let mut place = from;
    while place < marks.len() {
        marks[place] = NO_MARK;
        place += 1;
    }
}

// Keeps the marks for which `told` has `true`, of the first ones, in their order. The places behind
// them are empty then.
fn pick_marks(marks: &mut [Mark], told: &[bool])
    requires { length told.now ≤ length marks.old }
    ensures { (i : ℕ)
        → node marks.new i ≡ node (items_where_true told.now (take (length told.now) marks.old)) i }
{
    let kept = gather(&mut marks[..told.len()], told);
    empty_from(marks, kept);
}

// Gives the leaves the ranks and the flags of these marks. Before, they are those of as many others.
fn mark_leaves(marks: &[Mark], nodes: &mut Vec<Node>)
    requires leaves { (before : List Mark) × (length before ≡ length marks.now)
        × AreLeaves before nodes.old.items }
    ensures { AreLeaves marks.now nodes.new.items }
{
    for (place, mark) in marks.iter().enumerate() {
        let leaf = marks.len() + place;
        let leaf_place = nodes[leaf].place;
        nodes[leaf] = Node {
            rank: rank_of(&mark.due),
            place: leaf_place,
            flags: mark.flags,
        };
    }
}

// The nodes of single places, with room for those above them before.
fn leaves(alloc: Global, marks: &[Mark]) -> Result<Vec<Node>, AllocError>
    requires range { length marks.now ≤ 2 ^ 32 }
    ensures { IfOk result (λ v. AreLeaves marks.now v.items) }
{
    let mut nodes = vec![in alloc; NO_NODE; 2 * marks.len()]?;
    for (place, mark) in marks.iter().enumerate() {
        nodes[marks.len() + place] = Node {
            rank: rank_of(&mark.due),
            place: place as u32,
            flags: mark.flags,
        };
    }
    Ok(nodes)
}

/// The marks of some places; their number is a power of two. Contracts see them as a list.
#[derive(Drop)]
pub struct Marks {
    marks: Vec<Mark>,
    nodes: Vec<Node>,
}

impl Model for Marks {
    ghost use Rattle.std.specs.Prelude.{List};
    ghost use Rattle.sim_index.specs.declared.mark.Mark.{Mark};
    ghost use Rattle.sim_index.specs.Marks.{IsTree};

    ghost Value = { List Mark };

    ghost view = { λ m. m.marks.items };

    ghost invariant = { λ m. IsTree m.marks.items m.nodes.items };
}

impl Marks {
    /// No marks.
    pub fn new(alloc: Global) -> Marks
        ensures { result ≡ [] }
    {
        Marks {
            marks: Vec::new(alloc),
            nodes: Vec::new(alloc),
        }
    }

    /// The marks of `width` places, of which the first have these.
    ///
    /// # Errors
    ///
    /// `AllocError` if memory runs out, or for more than 2^32 places.
    pub fn of(alloc: Global, width: usize, marks: &[Mark]) -> Result<Marks, AllocError>
        requires power { IsPower width }
        requires some { 1 ≤ width }
        requires range { 2 * width < 2 ^ 64 }
        requires room { length marks.now ≤ width }
        ensures marks { IfOk result (λ m. (i : ℕ) → node m i ≡ node marks.now i) }
        ensures length { IfOk result (λ m. length m ≡ width) }
    {
        if MOST_PLACES < width {
            return Err(AllocError);
        }
        let mut all = Vec::with_capacity(alloc, width)?;
        all.extend_from_slice(marks)?;
        all.resize(width, NO_MARK)?;
        let mut nodes = leaves(alloc, &all)?;
        write_above(&all, &mut nodes);
        Ok(Marks { marks: all, nodes })
    }

    /// The marks of the places, in order.
    pub fn leaves(&self) -> &[Mark]
        ensures { result.now ≡ self.now }
    {
        &self.marks
    }

    /// Sets the mark of a place.
    pub fn put(&mut self, place: usize, mark: &Mark)
        requires { place < length self.old }
        ensures { self.new ≡ set self.old place mark.now }
    {
        let leaf = self.marks.len() + place;
        let rank = rank_of(&mark.due);
        if self.nodes[leaf].rank == rank && self.marks[place] == *mark {
            return;
        }
        self.marks[place] = *mark;
        let leaf_place = self.nodes[leaf].place;
        self.nodes[leaf] = Node {
            rank,
            place: leaf_place,
            flags: mark.flags,
        };
        mend(&self.marks, &mut self.nodes, leaf, leaf_place);
    }

    /// Keeps the marks for which `told` has `true`, of the first places, in their order. All places
    /// behind them are empty then.
    pub(crate) fn pick(&mut self, told: &[bool])
        requires { length told.now ≤ length self.old }
        ensures marks { (i : ℕ)
            → node self.new i
            ≡ node (items_where_true told.now (take (length told.now) self.old)) i }
        ensures length { length self.new ≡ length self.old }
    {
        pick_marks(&mut self.marks, told);
        mark_leaves(&self.marks, &mut self.nodes);
        write_above(&self.marks, &mut self.nodes);
    }

    /// Whether the mark of any place has one of these flags.
    pub fn has_on(&self, flags: u32) -> bool
        ensures { result ≡ list_any (meets flags) self.now }
    {
        reaches(&self.nodes, 1, flags)
    }

    /// The first place at or after `from` whose mark has one of these flags.
    pub fn next(&self, from: usize, flags: u32) -> Option<usize>
        requires { from ≤ length self.now }
        ensures { MatchOption result (NoneIn self.now flags from (length self.now))
            (IsNextIn self.now flags from (length self.now)) }
    {
        if !self.has_on(flags) {
            return None;
        }
        let width = self.marks.len();
        if from == 0 {
            return Some(first_told(&self.nodes, width, flags) - width);
        }
        match next_in(&self.nodes, width, width + from, flags) {
            None => None,
            Some(node) => Some(node - width),
        }
    }

    /// The key of the least entry due.
    pub fn least(&self) -> &Option<Key>
        ensures { result.now ≡ least_of self.now }
    {
        match self.nodes.get(1) {
            None => &NOTHING_DUE,
            Some(root) => &self.marks[root.place as usize].due,
        }
    }

    /// The first place at which the least entry is due; none if nothing is due.
    pub fn place_of_least(&self) -> Option<usize>
        ensures { MatchOption result (least_of self.now ≡ None) (IsPlaceOfLeast self.now) }
    {
        let root = self.nodes.get(1)?;
        let place = root.place as usize;
        self.marks[place].due?;
        Some(place)
    }
}
