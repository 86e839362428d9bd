//! The calls that a script makes.
ghost use Rattle.std.specs.Prelude.{◌≡◌, ◌<◌, ◌≤◌, IfOk, OnSome, drop, length};
ghost use Rattle.sqs_model.specs.Actor.{first_at, script_wake as the_script_wake};
ghost use Rattle.sim_actor.specs.Lives.{Meets, Lived, made_of};

use super::Life;
use sim_clock::Refusal;
use sqs_message::{Call, ScriptCall, Text};
use sqs_model::Act;
use std::alloc::{AllocError, Global};

// A call with the same values.
fn copied(alloc: Global, call: &Call) -> Result<Call, AllocError>
    ensures { IfOk result (λ copy. copy ≡ call.now) }
{
    Ok(match call {
        Call::Send {
            body,
            delay,
            group,
            id,
        } => Call::Send {
            body: body.copy(alloc)?,
            delay: *delay,
            group: Text::copy_of(alloc, group.as_ref())?,
            id: Text::copy_of(alloc, id.as_ref())?,
        },
        Call::Receive { max, wait, timeout } => Call::Receive {
            max: *max,
            wait: *wait,
            timeout: *timeout,
        },
        Call::Delete { receipt } => Call::Delete {
            receipt: receipt.copy(alloc)?,
        },
        Call::Change { receipt, timeout } => Call::Change {
            receipt: receipt.copy(alloc)?,
            timeout: *timeout,
        },
        Call::Start { task } => Call::Start { task: *task },
        Call::Cancel { task } => Call::Cancel { task: *task },
    })
}

// When the call with an index is made, if there is one.
fn time_at(calls: &[ScriptCall], n: usize) -> Option<u64>
    ensures { result ≡ first_at (drop n calls.now) }
{
    calls.get(n).map(|call| call.at)
}

// The act that makes call n of a script, and when the next one is made. Past the end it does
// nothing.
fn call_made(
    alloc: Global,
    calls: &[ScriptCall],
    n: u64,
) -> Result<Option<(Act, Option<u64>)>, AllocError>
    ensures made { IfOk result (λ made. made ≡ made_of (drop n calls.now)) }
    ensures within { IfOk result (λ made. OnSome made (n < length calls.now)) }
{
    let n = n as usize;
    if n >= calls.len() {
        return Ok(None);
    }
    let act = Act::of(alloc, copied(alloc, &calls[n].call)?)?;
    Ok(Some((act, time_at(calls, n + 1))))
}

impl Life {
    // A script's wake has come: it makes its next call, and wakes for the one after it.
    pub(crate) fn script_wake(&mut self, script: &[ScriptCall]) -> Result<Act, Refusal>
        requires { length script.now ≤ 100000 }
        ensures decision { Lived self.old self.new (λ a b. Meets result a b (the_script_wake a
            (drop a.wakes script.now))) }
        ensures framed { self.new.number ≡ self.old.number }
    {
        let Some((act, wake)) = call_made(self.alloc, script, self.wakes)? else {
            self.wake = None;
            return Ok(Act::Nothing);
        };
        self.count_wake();
        self.wake = wake;
        Ok(act)
    }
}
