//! Messages, their ids and receipts, the calls that actors make, and the rows of the log.
#![tactic(auto)]

mod ahead;
mod body;
mod calls;
mod digest;
mod filling;
mod handle;
mod ids;
mod lanes;
mod listed;
mod message;
mod row;
mod text;

pub use ahead::Ahead;
pub use body::{Body, Template};
pub use calls::{Call, Script, ScriptCall};
pub use digest::{body_md5, body_sha256};
pub use filling::has_mark;
pub use handle::{HandleForm, ReceiptHandle};
pub use ids::{MessageId, Origin, Receipt};
pub use listed::Listed;
pub use message::{Message, Place};
pub use row::{Detail, Row, RowAnswer, RowKind, RowReceipt};
pub use text::Text;
