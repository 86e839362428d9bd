//! Ways between sites.

/// A way from one site to another, with the least time that a transfer takes along it.
#[derive(Clone, Copy, Debug, PartialEq, Eq)]
pub struct Edge {
    /// The number of the site from which transfers go.
    pub from: u32,
    /// The number of the site to which they go.
    pub to: u32,
    /// The least latency, in milliseconds.
    pub least: u64,
}
