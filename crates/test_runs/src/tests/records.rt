//! What no clause says: the bytes themselves, compared with values worked out by hand, and writers
//! that are slow or fail.
ghost use Rattle.std.specs.Prelude.{◌≡◌, false};

mod finals;
mod rows;
mod writers;

use crate::tests::same::same;
use sim_clock::Refusal;
use sim_records::{Names, Out, ToWriter, write_header, write_rows};
use sqs_message::{Row, Text};
use std::alloc::Global;
use std::process::Abort;

/// The MD5 of `abc`.
const ABC: [u8; 16] = [
    0x90, 0x01, 0x50, 0x98, 0x3c, 0xd2, 0x4f, 0xb0, 0xd6, 0x96, 0x3f, 0x7d, 0x28, 0xe1, 0x7f, 0x72,
];

fn text(rt: &impl Abort, alloc: Global, bytes: &[u8]) -> Text {
    Text::new(bytes.to_vec(alloc).expect(rt, "memory"))
}

/// The queues `q` and `d`, the actor `s` and the task `t`.
fn names(rt: &impl Abort, alloc: Global) -> Names {
    let mut texts = Vec::new(alloc);
    for &name in &[b"q", b"d", b"s", b"t"] {
        texts.push(text(rt, alloc, name)).expect(rt, "memory");
    }
    Names::new(texts)
}

/// Writes the header and these rows.
fn write_log<W: Out>(alloc: Global, out: &mut W, rows: &[Row], names: &Names) -> Result<(), Refusal>
    requires { (W.state out.old).failed ≡ false }
{
    write_header(alloc, out)?;
    write_rows(alloc, out, rows, names)
}

/// Compares what a writer holds after a call that succeeded.
fn try_written(
    rt: &impl Abort,
    out: &ToWriter<Vec<u8>>,
    answer: Result<(), Refusal>,
    bytes: &[u8],
) {
    same(rt, (answer, out.get_ref().as_slice()), (Ok(()), bytes));
}
