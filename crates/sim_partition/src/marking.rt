//! Sites, each marked with its next entry due.
ghost use Rattle.std.specs.Prelude.{◌≡◌, IfOk, map};
ghost use Rattle.sim_index.specs.Marked.{AreMarked};
ghost use Rattle.sim_partition.specs.Sites.{mark_of};

use sim_engine::Site;
use sim_index::{Mark, MarkedList};
use std::alloc::{AllocError, Global};

/// The mark of a site: the key of its next entry due.
pub fn mark_of<S: Site>(site: &S) -> Mark
    ensures { result ≡ mark_of S.engine site.now }
{
    Mark {
        due: site.least_due(),
        flags: 0,
    }
}

/// Sites, each marked with its next entry due. It fails if memory runs out.
pub fn marked<S: Site>(alloc: Global, sites: Vec<S>) -> Result<MarkedList<S>, AllocError>
    ensures sites { IfOk result (λ list. list.values ≡ sites.items) }
    ensures marked { IfOk result (AreMarked (mark_of S.engine)) }
{
    MarkedList::of(alloc, sites, |site| mark_of(site))
}

/// The numbers of sites. It fails if memory runs out.
pub fn numbers_of<S: Site>(alloc: Global, sites: &[S]) -> Result<Vec<u32>, AllocError>
    ensures { IfOk result (λ numbers. numbers.items ≡ map S.engine.number sites.now) }
{
    sites.iter().map(|site| site.number()).collect(alloc)
}
