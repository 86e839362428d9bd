ghost use Rattle.std.specs.Prelude.{◌≡◌};

use crate::tests::same::same;
use sqs_message::{
    Ahead, Body, Call, HandleForm, Message, MessageId, Origin, Place, Receipt, ReceiptHandle,
    Script, ScriptCall, Template, Text, body_md5, body_sha256,
};
use std::alloc::{AllocError, Global};
use std::process::Abort;

fn text(rt: &impl Abort, alloc: Global, bytes: &[u8]) -> Text {
    Text::new(bytes.to_vec(alloc).expect(rt, "memory"))
}

fn body(rt: &impl Abort, alloc: Global, bytes: &[u8]) -> Body {
    Body::new(alloc, text(rt, alloc, bytes)).expect(rt, "memory")
}

// Whether a body has these bytes.
fn try_bytes(rt: &impl Abort, alloc: Global, body: &Body, bytes: &'static [u8]) {
    let text = body.text(alloc).expect(rt, "memory");
    same(rt, text.as_bytes(), bytes);
}

fn receipt(site: u32, number: u64, count: u64) -> Receipt
    ensures { result ≡ record { site = site; number = number; count = count } }
{
    Receipt {
        site,
        number,
        count,
    }
}

// Compares what was written of something.
fn try_written(rt: &impl Abort, written: Result<String, AllocError>, wanted: &str) {
    same(rt, written.expect(rt, "memory").as_str(), wanted);
}

#[test]
fn ids_are_written(rt: HostRuntime) {
    let id = MessageId { site: 2, number: 0 };
    let origin = Origin {
        site: 0,
        number: 4611686018427387903,
    };
    let receipt = receipt(0, 12, 1);
    try_written(&rt, id.text(rt.alloc()), "m-2-0");
    try_written(&rt, origin.text(rt.alloc()), "o-0-4611686018427387903");
    try_written(&rt, receipt.text(rt.alloc()), "r-0-12-1");
}

#[test]
fn receipts_are_read_back_and_nothing_else(rt: HostRuntime) {
    let receipt = receipt(4294967295, 4611686018427387903, 1);
    let text = "r-4294967295-4611686018427387903-1";
    same(&rt, Receipt::read(text), Some(receipt));
    for &other in &[
        "",
        "r",
        "r-",
        "r-0",
        "r-0-12",
        "r-0-12-",
        "r-0-12-0",
        "r-0-012-1",
        "r-00-12-1",
        "r-0-+12-1",
        "r-0--1",
        "r-0-12-1-",
        "r-0-12-1 ",
        "R-0-12-1",
        "m-0-12",
        "r-4294967296-12-1",
        "r-0-4611686018427387904-1",
        "r-0-12-4611686018427387904",
        "r-0-99999999999999999999-1",
    ] {
        same(&rt, (other, Receipt::read(other)), (other, None));
    }
}

// Whether a handle was given as a text.
fn is_text(handle: &ReceiptHandle) -> bool {
    match handle.form() {
        HandleForm::Made(_) => false,
        HandleForm::Text(_) => true,
    }
}

#[test]
fn handles_are_receipts_where_they_fit(rt: HostRuntime) {
    let never_received = receipt(0, 12, 0);
    let receipt = receipt(0, 12, 1);
    let made = ReceiptHandle::from(receipt);
    let given = ReceiptHandle::from(text(&rt, rt.alloc(), b"r-0-12-1"));
    let other = ReceiptHandle::from(text(&rt, rt.alloc(), b"r-0-12-1\xff"));
    same(
        &rt,
        (made.receipt(), is_text(&made)),
        (Some(receipt), false),
    );
    same(
        &rt,
        (given.receipt(), is_text(&given)),
        (Some(receipt), true),
    );
    same(&rt, other.receipt(), None);
    same(&rt, ReceiptHandle::from(never_received).receipt(), None);
}

// The MD5 of `abc` (RFC 1321, A.5).
const MD5: &str = "900150983cd24fb0d6963f7d28e17f72";

#[test]
fn digests_of_abc(rt: HostRuntime) {
    let sha256 = "ba7816bf8f01cfea414140de5dae2223b00361a396177a9cb410ff61f20015ad";
    try_written(&rt, hex::encode(rt.alloc(), &body_md5(b"abc")), MD5);
    try_written(&rt, hex::encode(rt.alloc(), &body_sha256(b"abc")), sha256);
}

#[test]
fn bodies_are_made_of_a_template_and_a_number(rt: HostRuntime) {
    let template = text(&rt, rt.alloc(), b"a{n}b{n}{n");
    let template = Template::new(rt.alloc(), template).expect(&rt, "memory");
    let mut ahead = Ahead::new(rt.alloc());
    let body = template.body(12, 1, &mut ahead).expect(&rt, "memory");
    let copy = body.copy().expect(&rt, "memory");
    try_bytes(&rt, rt.alloc(), &copy, b"a12b12{n");
    let found = (
        body.contains(b"2b1"),
        body.contains(b"{n}"),
        body.contains(b""),
    );
    same(&rt, found, (true, false, true));
}

// 52 letters and a number.
const LONG: &[u8] = b"xxxxxxxxxxxxxxxxxxxxxxxxxxxxxxxxxxxxxxxxxxxxxxxxxxxx{n}";

// What a template makes of some numbers, of which so many bodies are still to come, and their MD5s
// (RFC 1321): short bodies four at a time, of one template and of another, and long ones.
const BODIES_AHEAD: [(&[u8], u64, u64, &str); 8] = [
    (b"{n}", 1, 5, "c4ca4238a0b923820dcc509a6f75849b"),
    (b"{n}", 2, 4, "c81e728d9d4c2f636f067f89cc14862c"),
    (b"{n}", 4, 2, "a87ff679a2f3e71d9181a67b7542122c"),
    (b"{n}", 5, 1, "e4da3b7fbbce2345d7772b0674a318d5"),
    (b"{n}{n}", 1, 4, "6512bd43d9caa6e02c990b0a82652dca"),
    (b"{n}", 3, 3, "eccbc87e4b5ce2fe28308fd9f2a7baf3"),
    (LONG, 9999, 9, "7ba16999473979743633649778799b2b"),
    (b"{n}", u64::MAX, 4, "7e7825a3d8588a756abd0ce2ed07e121"),
];

#[test]
fn digests_are_computed_ahead(rt: HostRuntime) {
    let mut ahead = Ahead::new(rt.alloc());
    for (letters, number, left, md5) in BODIES_AHEAD {
        let template = text(&rt, rt.alloc(), letters);
        let template = Template::new(rt.alloc(), template).expect(&rt, "memory");
        let body = template
            .body(number, left, &mut ahead)
            .expect(&rt, "memory");
        try_written(&rt, hex::encode(rt.alloc(), &body.md5()), md5);
    }
}

#[test]
fn texts_are_made_copied_and_given_back(rt: HostRuntime) {
    let first = text(&rt, rt.alloc(), b"abc");
    let other = text(&rt, rt.alloc(), b"abd");
    let copy = first.copy(rt.alloc()).expect(&rt, "memory");
    same(&rt, (first == copy, first == other), (true, false));
    same(&rt, copy.as_bytes(), b"abc".as_slice());
    same(&rt, copy.into_bytes().as_slice(), b"abc".as_slice());
}

// The moment of the only call.
fn moment(calls: &[ScriptCall]) -> Option<u64> {
    match calls {
        [only] => Some(only.at),
        _ => None,
    }
}

#[test]
fn scripts_are_plain_data(rt: HostRuntime) {
    let call = Call::Receive {
        max: 1,
        wait: 0,
        timeout: None,
    };
    let calls = vec![in rt.alloc(); ScriptCall { at: 7, call }];
    let script = Script::new(calls.expect(&rt, "memory"));
    same(&rt, moment(script.as_slice()), Some(7));
    same(&rt, moment(&script.into_vec()), Some(7));
}

#[test]
fn messages_are_plain_data(rt: HostRuntime) {
    let message = Message {
        number: 0,
        origin: Origin { site: 0, number: 0 },
        body: body(&rt, rt.alloc(), b"abc"),
        group: None,
        enqueued: 5,
        place: Place::Visible,
        release: None,
        receives: 0,
        received: 0,
        source: None,
    };
    try_bytes(&rt, rt.alloc(), &message.body, b"abc");
    try_written(&rt, hex::encode(rt.alloc(), &message.body.md5()), MD5);
}
