//! What a scenario's text says of the services of a consumer that fail.
use sqs_message::{Listed, Text};
use sqs_model::Outage;

/// Which services of a consumer fail, and what follows.
#[derive(Drop)]
pub struct Failing {
    /// When services that are decided fail with another chance.
    pub outages: Listed<Outage>,
    /// The text that makes a service fail if the message's body contains it.
    pub fails_on: Option<Text>,
    /// Whether a failed service fails all messages of its receive.
    pub whole: bool,
    /// The visibility timeouts in seconds that follow a failed service, by the receive count.
    pub backoff: Listed<u64>,
    /// Whether such a timeout is drawn, from 0 to that number of seconds.
    pub jitter: bool,
    /// How often the visibility timeout of the message in service is set anew, in milliseconds.
    pub heartbeat: Option<u64>,
}
