//! The definitions: queues and their calls, actors, move tasks, sites, and the one-list run of a
//! scenario. They are in `specs/`. The code has the types that they share with several crates, and
//! the laws about the definitions on which crates rely.
#![tactic(auto)]

mod acts;
mod agents;
mod finals;
mod laws;
mod limits;

pub use acts::{Act, Answer, Standing};
pub use agents::{
    ActorSettings, ConsumerSettings, Distribution, Forwarding, Groups, Outage, ProducerSettings,
    Quantile, Role, ScalerSettings, Scaling, ScalingStep, Serving, Stretch, Target, WeightedGroup,
};
pub use finals::{
    FinalMessage, FinalMessages, FinalTask, FinalTasks, FinalTransfer, FinalTransfers, Finals,
    TransferKind,
};
pub use laws::{
    accepting_keeps_ways, counts_only_grow, delivery_in_any_order, each_keeps_one_place,
    giving_is_giving_then_returning, handling_apart_from_delivery, handling_goes_along_ways,
    handling_keeps_time, handling_leaves_none_before, handling_makes_nothing_due_now,
    handling_moves_on, handling_stays_recent, no_other_comes_in, opening_has_ways,
    opening_is_sound, run_ends, scenarios_are_simulated, sorted_sites_stay_sorted, turns_end,
};
pub use limits::{
    DEDUPLICATION_INTERVAL, LONGEST_DELAY, LONGEST_FLIGHT, LONGEST_TIMEOUT, MOST_COUNT,
};
