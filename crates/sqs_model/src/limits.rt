//! The limits of counts and times.

/// The greatest value of a count of an agent, and of a moment in milliseconds.
pub const MOST_COUNT: u64 = (1 << 62) - 1;

/// The longest visibility timeout, in seconds: 12 hours. SQS API Reference,
/// `ChangeMessageVisibility`.
pub const LONGEST_TIMEOUT: u64 = 43_200;

/// How long a message may be in flight from its receive on, in milliseconds: 12 hours. SQS
/// Developer Guide, "Amazon SQS visibility timeout".
pub const LONGEST_FLIGHT: u64 = 43_200_000;

/// The longest delay of a message, in seconds: 15 minutes. SQS API Reference, `SendMessage`.
pub const LONGEST_DELAY: u64 = 900;

/// How long a deduplication entry lives, in milliseconds: 5 minutes. SQS Developer Guide, "Using
/// the message deduplication ID".
pub const DEDUPLICATION_INTERVAL: u64 = 300_000;
