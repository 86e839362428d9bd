//! The heads of some lists, kept so that the least of them is at hand.
ghost use Rattle.std.specs.Ordering.{is_lt};
ghost use Rattle.std.specs.Prelude.{◌≡◌, ◌*◌, ◌+◌, ◌/◌, ◌<◌, IfOk, drop, length, replicate, set, true, vec_len};
ghost use Rattle.sim_exchange.specs.Heads.{AreLesserBut, IsLeast, first_cmp, head_cmp, head_in, lesser, no_head};

use sim_clock::{Class, Key};
use std::alloc::{AllocError, Global};
use std::marker::Model;

/// What the first row of a list is compared by.
#[derive(Clone, Copy)]
pub struct Head {
    /// Whether the list has no rows. If so, the key and the site mean nothing.
    pub is_done: bool,
    /// The key of the row's handling.
    pub key: Key,
    /// The number of the row's site.
    pub site: u32,
    /// The index of the list among the lists.
    pub place: usize,
}

impl Head {
    /// The head of a list with no rows.
    pub fn none(place: usize) -> Head
        ensures { result ≡ no_head place }
    {
        Head {
            is_done: true,
            key: Key {
                at: 0,
                agent: 0,
                class: Class::Arrival,
                number: 0,
            },
            site: 0,
            place,
        }
    }

    // Whether it equals another head.
    fn is_same(&self, other: &Head) -> bool
        ensures same { result ≡ true → self.now ≡ other.now }
        ensures told { self.now ≡ other.now → result ≡ true }
    {
        self.key == other.key
            && self.site == other.site
            && self.is_done == other.is_done
            && self.place == other.place
    }

    // Whether it comes before another one.
    fn is_before(&self, other: &Head) -> bool
        ensures { result ≡ is_lt (head_cmp self.now other.now) }
    {
        if self.is_done == other.is_done {
            self.is_first_before(other)
        } else {
            other.is_done
        }
    }

    // The same for two lists that have rows. Mostly the moments decide.
    fn is_first_before(&self, other: &Head) -> bool
        ensures { result ≡ is_lt (first_cmp self.now other.now) }
    {
        if self.key.at != other.key.at {
            return self.key.at < other.key.at;
        }
        self.key
            .cmp(&other.key)
            .then(self.site.cmp(&other.site))
            .then(self.place.cmp(&other.place))
            .is_lt()
    }
}

// Which of the two below a node has the lesser head.
fn lesser_below(nodes: &[Head], node: usize) -> usize
    requires { 2 * node + 1 < length nodes.now }
    ensures within { result < length nodes.now }
    ensures lesser { head_in nodes.now result
        ≡ lesser (head_in nodes.now (2 * node)) (head_in nodes.now (2 * node + 1)) }
{
    let first = 2 * node;
    if nodes[first + 1].is_before(&nodes[first]) {
        first + 1
    } else {
        first
    }
}

// Writes each node above this one: the lesser of its two children.
fn mend(nodes: &mut Vec<Head>, width: usize, node: usize)
    requires above { AreLesserBut nodes.old.items (node / 2) }
    requires within { node < vec_len nodes.old }
    requires long { vec_len nodes.old ≡ 2 * width }
    ensures lesser { AreLesserBut nodes.new.items 0 }
    ensures leaves { drop width nodes.new.items ≡ drop width nodes.old.items }
    ensures length { vec_len nodes.new ≡ vec_len nodes.old }
{
    let mut node = node / 2;
    while 0 < node {
        nodes[node] = nodes[lesser_below(nodes, node)];
        node /= 2;
    }
}

/// The heads of some lists, in a tree: each inner node has the lesser of its two children.
/// Contracts see the heads by the indices of the lists.
#[derive(Drop)]
pub struct Heads {
    nodes: Vec<Head>,
    width: usize,
}

impl Model for Heads {
    ghost use Rattle.std.specs.Prelude.{List, drop};
    ghost use Rattle.sim_exchange.specs.declared.heads.Head.{Head};
    ghost use Rattle.sim_exchange.specs.Heads.{IsTree};

    ghost Value = { List Head };

    ghost view = { λ m. drop m.width m.nodes.items };

    ghost invariant = { λ m. IsTree m.nodes.items m.width };
}

impl Heads {
    /// The heads of `width` lists with no rows. It fails if memory runs out.
    pub fn new(alloc: Global, width: usize) -> Result<Heads, AllocError>
        ensures { IfOk result (λ heads. heads ≡ replicate width (no_head 0)) }
    {
        let size = width.checked_mul(2).ok_or(AllocError)?;
        let nodes = vec![in alloc; Head::none(0); size]?;
        Ok(Heads { nodes, width })
    }

    /// Sets the head of a list, by one comparison for each doubling of the number of lists. If the
    /// head is there already, as after a row whose handling made another one, the tree stays as it
    /// is.
    pub fn put(&mut self, place: usize, head: Head)
        requires { place < length self.old }
        ensures { self.new ≡ set self.old place head }
    {
        let node = self.width + place;
        if self.nodes[node].is_same(&head) {
            return;
        }
        self.nodes[node] = head;
        mend(&mut self.nodes, self.width, node);
    }

    /// The least head.
    pub fn least(&self) -> Head
        requires { 0 < length self.now }
        ensures { IsLeast self.now result }
    {
        self.nodes[1]
    }
}
