//! A FIFO queue of many messages in many groups: the messages of each group come in their order,
//! and a receive reads few messages.
use crate::tests::calls::{Asked, Calls, Given};
use crate::tests::fifo::plain;
use crate::tests::in_order::InOrder;
use sqs_fifo::FifoQueue;
use sqs_message::{Body, Text};
use sqs_redrive::{Deleted, Got};
use std::alloc::{AllocError, Global};
use std::process::Abort;
use std::test::Fail;

const MESSAGES: u32 = 100000;

const GROUPS: u64 = 1000;

const TEN: Asked = Asked {
    max: 10,
    timeout: None,
    hosts: None,
    short: false,
};

// The digits of a number.
fn text(alloc: Global, number: u64) -> Result<Text, AllocError> {
    Ok(Text::new(format!(in alloc; "{number}")?.into_bytes()))
}

// The name of a message's group.
fn group(alloc: Global, number: u64) -> Result<Text, AllocError> {
    text(alloc, number % GROUPS)
}

// Sends each message at the moment of its number, to the groups in turn.
fn send_all(alloc: Global, queue: &mut InOrder) -> Result<(), Fail> {
    for moment in 0..MESSAGES {
        let number = u64::from(moment);
        let given = Given {
            body: Body::new(alloc, text(alloc, number)?)?,
            group: Some(group(alloc, number)?),
            id: Some(text(alloc, number)?),
            delay: None,
        };
        queue.send(moment, given)?;
    }
    Ok(())
}

// Whether what was given is the message with a number, in its group.
fn is_message(alloc: Global, got: &Got, number: u64) -> Result<bool, AllocError> {
    let wanted = group(alloc, number)?;
    match &got.group {
        None => Ok(false),
        Some(given) => Ok(got.id.number == number && *given == wanted),
    }
}

// Receives ten messages of a group, its first and what follows that, and deletes them.
fn take_ten(rt: &impl Abort, alloc: Global, queue: &mut InOrder, first: u32) -> Result<(), Fail> {
    let batch = queue.receive(MESSAGES, TEN)?;
    assert!(rt; queue.looked()? <= 20);
    assert_eq!(rt; batch.len(), 10);
    for place in 0..10 {
        let got = &batch[place];
        let number = u64::from(first) + GROUPS * place as u64;
        assert!(rt; is_message(alloc, got, number)?, "{number}");
        let deleted = queue.delete(MESSAGES, &got.receipt)?;
        assert!(rt; matches!(deleted, Deleted::Removed(_)), "{number}");
    }
    Ok(())
}

// A receive gives ten of the group whose first message came before those of the others.
#[test]
fn reads_few_of_many(rt: HostRuntime) -> Result<(), Fail> {
    let mut queue = InOrder::new(FifoQueue::new(rt.alloc(), 7, plain()));
    send_all(rt.alloc(), &mut queue)?;
    for tens in 0..10 {
        for group in 0..1000 {
            take_ten(&rt, rt.alloc(), &mut queue, 10000 * tens + group)?;
        }
    }
    assert!(rt; queue.view().next().is_none());
    Ok(())
}
