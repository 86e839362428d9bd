//! The effects of a handling at a site.

use sqs_message::Row;
use sqs_redrive::Outbound;

/// The rows of the log made and the transfers to other queues sent so far, in order, by handlings
/// one after another.
pub type Effects = sim_engine::Effects<Row, Outbound>;
