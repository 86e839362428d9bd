//! What the tree keeps of one place, or of several together.
ghost use Rattle.std.specs.Prelude.{None, if◌then◌else◌, false, true, ◌≡◌, ◌≢◌, get_or};
ghost use Rattle.sim_clock.specs.Order.{lesser};
ghost use Rattle.sim_index.specs.Marks.{no_mark, rank_of};

use sim_clock::Key;

/// What the tree keeps of one place of a list, or of several together: the least entry due there,
/// and flags, as bits. The caller gives the flags their meaning.
#[derive(Clone, Copy, Debug, PartialEq, Eq)]
pub struct Mark {
    /// The key of the least entry due.
    pub due: Option<Key>,
    /// The flags, each a bit.
    pub flags: u32,
}

/// The mark of an empty place.
pub const NO_MARK: Mark = Mark {
    due: None,
    flags: 0,
};

/// The rank of what is due at a place, if nothing is.
pub const NO_RANK: u64 = u64::MAX;

// From this moment on all keys have one rank.
const LATE: u64 = (1 << 32) - 1;

/// The rank of what is due at a place. Of two keys the one with the lesser rank comes first; keys
/// with one rank are to be compared themselves.
pub fn rank_of(due: &Option<Key>) -> u64
    ensures { result ≡ rank_of due.now }
{
    match due {
        None => NO_RANK,
        Some(key) => {
            if key.at < LATE {
                (key.at << 32) + key.agent as u64
            } else {
                NO_RANK - 1
            }
        }
    }
}

/// Whether the lesser of two keys is the second, and not the first as well.
pub fn is_second(first: &Option<Key>, second: &Option<Key>) -> bool
    ensures lesser { lesser first.now second.now ≡ (if result then second.now else first.now) }
    ensures strict { result ≡ true → first.now ≡ second.now → second.now ≡ None }
    ensures some { result ≡ false → first.now ≢ None }
{
    match (first, second) {
        (None, _) => true,
        (Some(_), None) => false,
        (Some(first), Some(second)) => second.is_before(first),
    }
}

/// The mark at a place; past the end, that of an empty place.
pub fn mark_at(marks: &[Mark], place: usize) -> Mark
    ensures { result ≡ get_or marks.now place no_mark }
{
    if place < marks.len() {
        marks[place]
    } else {
        NO_MARK
    }
}
