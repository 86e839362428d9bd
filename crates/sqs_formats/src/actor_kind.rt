//! The kinds of actors.

/// What kind of actor an actor is.
#[derive(Copy, Clone)]
pub enum ActorKind {
    Script,
    Producer,
    Consumer,
    Scaler,
}
