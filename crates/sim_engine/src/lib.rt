//! A conservative simulator of worlds of sites of any kind. The crate defines a world, its run on
//! one list and its run in partitions. It proves that every run in partitions gives the result of
//! the run on one list. The trait `Site` says what a site must provide. The definitions are in
//! `specs/`, the proofs in `proofs/`.
#![tactic(auto)]

mod edge;
mod effects;
mod laws;
mod mapped;
mod picks;
mod site;

pub use edge::Edge;
pub use effects::Effects;
pub use laws::{
    machines_are_read_by_parts, machines_go_on, merging_keeps_order, parts_get_sorted,
    rounds_are_picks, sorting_keeps_each,
};
pub use mapped::{Mapped, RowMapper};
pub use picks::Pick;
pub use site::Site;
