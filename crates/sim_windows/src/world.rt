//! What a run begins with.
use sim_engine::{Edge, Site};
use std::marker::Model;

/// What a run begins with: the last moment in milliseconds, the sites numbered 0, 1, 2, .., and the
/// ways between them. Contracts see it as the setting of the definitions.
#[derive(Drop)]
pub struct World<S: Site> {
    pub horizon: u64,
    pub sites: Vec<S>,
    pub edges: Vec<Edge>,
}

impl<S: Site> Model for World<S> {
    ghost use Rattle.sim_engine.specs.Setting.{Setting};

    ghost Value = { Setting S };

    ghost view = { λ w. record { horizon = w.horizon; opening = w.sites.items; edges = w.edges.items } };
}
