//! The key of a deduplication entry.

use sqs_message::Text;

/// A deduplication id and its scope.
#[derive(Drop, PartialEq, Eq, Hash)]
pub struct ScopedId {
    /// The message group within which the id counts; none for the whole queue.
    pub scope: Option<Text>,
    /// The id.
    pub id: Text,
}
