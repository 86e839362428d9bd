//! A sink that takes a limited number of rows.
use crate::tests::same::same;
use sim_clock::Refusal;
use sim_windows::{Limit, RowSink};

#[test]
fn no_more_than_its_limit(rt: HostRuntime) {
    let mut sink = Limit { left: 2 };
    same(&rt, sink.take(&[5_u32]), Ok(()));
    same(&rt, sink.take(&[6_u32, 7]), Err(Refusal::Write));
    same(&rt, sink.left, 1);
}
