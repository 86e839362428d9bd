//! The room that a page gives for the answer.
ghost use Rattle.std.specs.Prelude.{◌≡◌, ◌≤◌, ◌<◌, false, length, take, true, IfErr, IfOk, MatchBool};
ghost use Rattle.sqs_rehearsal.specs.FaultLines.{refusal_line};

use sqs_rehearsal::{Fault, fault_line};
use std::alloc::{AllocError, Global};

/// Puts an answer into the room if there is place for it, and its length into `needed`. Returns
/// whether there is. If there is not, the room stays as it was.
pub fn put(answer: &[u8], room: &mut [u8], needed: &mut u64) -> bool
    ensures fits { result ≡ true → take needed.new room.new ≡ answer.now }
    ensures room { MatchBool result (needed.new ≤ length room.new) (room.new ≡ room.old) }
    ensures short { result ≡ false → length room.new < needed.new }
    ensures needed { needed.new ≡ length answer.now }
    ensures length { length room.new ≡ length room.old }
{
    *needed = answer.len() as u64;
    if answer.len() > room.len() {
        return false;
    }
    room[..answer.len()].copy_from_slice(answer);
    true
}

/// Puts the line of a fault into the room as `put` does. `needed` is 0 if memory is refused.
pub fn put_line(
    alloc: Global,
    fault: &Fault,
    room: &mut [u8],
    needed: &mut u64,
) -> Result<bool, AllocError>
    ensures fits { IfOk result (λ fits. fits ≡ true
        → take needed.new room.new ≡ refusal_line fault.now) }
    ensures room { IfOk result (λ fits.
        MatchBool fits (needed.new ≤ length room.new) (room.new ≡ room.old)) }
    ensures short { IfOk result (λ fits. fits ≡ false → length room.new < needed.new) }
    ensures needed { IfOk result (λ _. needed.new ≡ length (refusal_line fault.now)) }
    ensures memory { IfErr result (λ _. needed.new ≡ 0) }
    ensures kept { IfErr result (λ _. room.new ≡ room.old) }
    ensures length { length room.new ≡ length room.old }
{
    *needed = 0;
    let line = fault_line(alloc, fault)?;
    Ok(put(line.as_slice(), room, needed))
}
