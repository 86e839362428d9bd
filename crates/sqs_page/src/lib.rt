//! Rehearsals for a page in a browser, on one thread: the bytes of a scenario and its script files
//! in, the bytes of its log, final queues, report and figures out; or two scenarios in, and the
//! comparison of their reports out.
#![tactic(auto)]

ghost use Rattle.std.specs.Prelude.{◌≡◌, ◌≤◌, ◌<◌, ◌⊎◌, [], length, take};
ghost use Rattle.sqs_formats.specs.Actors.{Files};
ghost use Rattle.sqs_page.specs.Asking.{asked_by, newest_if, plain};
ghost use Rattle.sqs_page.specs.Comparisons.{IsComparisonOf, IsEitherFault, IsFirstFault, IsSecondFault};
ghost use Rattle.sqs_page.specs.Files.{AreFiles, ForFiles};
ghost use Rattle.sqs_page.specs.Pages.{IsLineOf, IsOutputOf, IsRefusedFor, IsRoomAfter, IsTooShort};
ghost use Rattle.sqs_rehearsal.specs.FaultLines.{refusal_line};

mod asked;
mod comparison;
mod files;
mod output;
mod room;

use crate::asked::{Asked, newest};
use crate::comparison::{Stop, comparison};
use crate::files::scripts_in;
use crate::output::output;
use crate::room::{put, put_line};
pub use asked::PageOptions;
pub use files::FileLengths;
use sim_scenario::{Newest, Scripts};
use sqs_rehearsal::Fault;
use std::alloc::Global;

/// The room has what was asked for: the log, the final queues, the report and the figures that are
/// wanted, or the comparison.
pub const DONE: u32 = 0;

/// The scenario, or the first one of two, is refused: the room has the line of its refusal.
pub const REFUSED: u32 = 1;

/// The room is too short for what was asked for.
pub const NO_ROOM: u32 = 2;

/// Memory was refused for the script files, or even for the line of a refusal.
pub const NO_MEMORY: u32 = 3;

/// A scenario is refused, and the room is too short for the line of its refusal.
pub const NO_LINE: u32 = 4;

/// The lengths are not those of script files in the bytes.
pub const NO_FILES: u32 = 5;

/// The second one of two scenarios is refused: the room has the line of its refusal.
pub const SECOND_REFUSED: u32 = 6;

// Puts what was asked for into the room.
fn put_output(output: &[u8], room: &mut [u8], needed: &mut u64) -> u32
    ensures code { (result ≡ 0) ⊎ (result ≡ 2) }
    ensures fits { result ≡ 0 → take needed.new room.new ≡ output.now }
    ensures short { result ≡ 2 → length room.new < needed.new }
    ensures needed { needed.new ≡ length output.now }
    ensures room { IsRoomAfter result needed.new room.old room.new }
    ensures length { length room.new ≡ length room.old }
{
    if put(output, room, needed) {
        DONE
    } else {
        NO_ROOM
    }
}

// Puts the line of a fault into the room. Returns the given code if there is place for it.
fn put_fault(alloc: Global, refused: u32, fault: &Fault, room: &mut [u8], needed: &mut u64) -> u32
    requires { (refused ≡ 1) ⊎ (refused ≡ 6) }
    ensures code { (result ≡ refused) ⊎ ((result ≡ 3) ⊎ (result ≡ 4)) }
    ensures line { result ≡ refused → take needed.new room.new ≡ refusal_line fault.now }
    ensures memory { result ≡ 3 → needed.new ≡ 0 }
    ensures short { result ≡ 4 → length room.new < needed.new }
    ensures needed { result ≡ 4 → needed.new ≡ length (refusal_line fault.now) }
    ensures room { IsRoomAfter result needed.new room.old room.new }
    ensures length { length room.new ≡ length room.old }
{
    match put_line(alloc, fault, room, needed) {
        Ok(true) => refused,
        Ok(false) => NO_LINE,
        Err(_) => NO_MEMORY,
    }
}

// Rehearses a scenario with its script files, and puts the answer into the room.
fn rehearse(
    alloc: Global,
    asked: Asked,
    text: &[u8],
    scripts: &Scripts,
    room: &mut [u8],
    needed: &mut u64,
) -> u32
    ensures code { result ≤ 4 }
    ensures output { result ≡ 0
        → IsOutputOf asked text.now scripts.now (take needed.new room.new) }
    ensures refused { result ≡ 1
        → IsLineOf (IsRefusedFor asked text.now scripts.now) (take needed.new room.new) }
    ensures short { result ≡ 2
        → IsTooShort room.new needed.new (IsOutputOf asked text.now scripts.now) }
    ensures memory { result ≡ 3 → needed.new ≡ 0 }
    ensures line { result ≡ 4
        → IsTooShort room.new needed.new (IsLineOf (IsRefusedFor asked text.now scripts.now)) }
    ensures room { IsRoomAfter result needed.new room.old room.new }
    ensures length { length room.new ≡ length room.old }
{
    match output(alloc, asked, text, scripts) {
        Ok(output) => put_output(output.as_slice(), room, needed),
        Err(fault) => put_fault(alloc, REFUSED, &fault, room, needed),
    }
}

// Compares two scenarios with the same script files, and puts the answer into the room.
fn compare(
    alloc: Global,
    newest: Newest,
    first: &[u8],
    second: &[u8],
    scripts: &Scripts,
    room: &mut [u8],
    needed: &mut u64,
) -> u32
    ensures code { result ≤ 6 }
    ensures has_files { result ≡ 5 → ⊥ }
    ensures output { result ≡ 0
        → IsComparisonOf newest first.now second.now scripts.now (take needed.new room.new) }
    ensures first { result ≡ 1
        → IsLineOf (IsFirstFault newest first.now second.now scripts.now)
        (take needed.new room.new) }
    ensures second { result ≡ 6
        → IsLineOf (IsSecondFault newest first.now second.now scripts.now)
        (take needed.new room.new) }
    ensures short { result ≡ 2
        → IsTooShort room.new needed.new (IsComparisonOf newest first.now second.now scripts.now) }
    ensures memory { result ≡ 3 → needed.new ≡ 0 }
    ensures line { result ≡ 4 → IsTooShort room.new needed.new
        (IsLineOf (IsEitherFault newest first.now second.now scripts.now)) }
    ensures room { IsRoomAfter result needed.new room.old room.new }
    ensures length { length room.new ≡ length room.old }
{
    match comparison(alloc, newest, first, second, scripts) {
        Ok(output) => put_output(output.as_slice(), room, needed),
        Err(Stop::First(fault)) => put_fault(alloc, REFUSED, &fault, room, needed),
        Err(Stop::Second(fault)) => put_fault(alloc, SECOND_REFUSED, &fault, room, needed),
    }
}

/// Rehearses a scenario of a released version whose scripts are in its text, on this thread alone.
/// `needed` gets the length of the answer, and the room the answer if there is place for it. After
/// `DONE` that is the log, what is left at the end and the report, and after `REFUSED` the line of
/// the refusal.
/// `NO_ROOM` and `NO_LINE` ask for a longer room. After them, and after `NO_MEMORY`, which sets
/// `needed` to 0, the room is as it was.
#[unsafe(no_mangle)]
pub extern "C" fn sqs_page_rehearse(
    alloc: Global,
    text: &[u8],
    room: &mut [u8],
    needed: &mut u64,
) -> u32
    ensures code { result ≤ 4 }
    ensures output { result ≡ 0 → IsOutputOf plain text.now [] (take needed.new room.new) }
    ensures refused { result ≡ 1
        → IsLineOf (IsRefusedFor plain text.now []) (take needed.new room.new) }
    ensures short { result ≡ 2 → IsTooShort room.new needed.new (IsOutputOf plain text.now []) }
    ensures memory { result ≡ 3 → needed.new ≡ 0 }
    ensures line { result ≡ 4
        → IsTooShort room.new needed.new (IsLineOf (IsRefusedFor plain text.now [])) }
    ensures room { IsRoomAfter result needed.new room.old room.new }
    ensures length { length room.new ≡ length room.old }
{
    let asked = Asked {
        newest: Newest::Second,
        figures: None,
    };
    let no_scripts = Scripts::new(Vec::new(alloc));
    rehearse(alloc, asked, text, &no_scripts, room, needed)
}

/// Rehearses a scenario as `sqs_page_rehearse` does, with its script files, and by options:
/// version 3 is read only if they ask for it, and figures follow the report if they ask for them.
/// `files` has the name of each file and, behind it, the file; `lengths` has how long both are.
/// After `NO_FILES` they do not fit together, `needed` is 0, and the room is as it was.
#[unsafe(no_mangle)]
pub extern "C" fn sqs_page_rehearse_with_files(
    alloc: Global,
    options: &PageOptions,
    text: &[u8],
    files: &[u8],
    lengths: &[FileLengths],
    room: &mut [u8],
    needed: &mut u64,
) -> u32
    ensures code { result ≤ 5 }
    ensures output { result ≡ 0 → ForFiles files.now lengths.now (λ scripts.
        IsOutputOf (asked_by options.now) text.now scripts (take needed.new room.new)) }
    ensures refused { result ≡ 1 → ForFiles files.now lengths.now (λ scripts.
        IsLineOf (IsRefusedFor (asked_by options.now) text.now scripts) (take needed.new room.new)) }
    ensures short { result ≡ 2 → ForFiles files.now lengths.now (λ scripts.
        IsTooShort room.new needed.new (IsOutputOf (asked_by options.now) text.now scripts)) }
    ensures memory { result ≡ 3 → needed.new ≡ 0 }
    ensures line { result ≡ 4 → ForFiles files.now lengths.now (λ scripts.
        IsTooShort room.new needed.new
        (IsLineOf (IsRefusedFor (asked_by options.now) text.now scripts))) }
    ensures no_files { result ≡ 5 → (scripts : Files) → ¬ AreFiles files.now lengths.now scripts }
    ensures nothing { result ≡ 5 → needed.new ≡ 0 }
    ensures room { IsRoomAfter result needed.new room.old room.new }
    ensures length { length room.new ≡ length room.old }
{
    *needed = 0;
    let asked = options.asked();
    match scripts_in(alloc, files, lengths) {
        Ok(Some(scripts)) => rehearse(alloc, asked, text, &scripts, room, needed),
        Ok(None) => NO_FILES,
        Err(_) => NO_MEMORY,
    }
}

/// Compares two scenarios with the same script files, given as to `sqs_page_rehearse_with_files`.
/// After `DONE` the room has the comparison of their reports. After `REFUSED` it has the line of
/// the first one's refusal, and after `SECOND_REFUSED` that of the second one's.
#[unsafe(no_mangle)]
pub extern "C" fn sqs_page_compare(
    alloc: Global,
    version_3: bool,
    first: &[u8],
    second: &[u8],
    files: &[u8],
    lengths: &[FileLengths],
    room: &mut [u8],
    needed: &mut u64,
) -> u32
    ensures code { result ≤ 6 }
    ensures output { result ≡ 0 → ForFiles files.now lengths.now (λ scripts.
        IsComparisonOf (newest_if version_3) first.now second.now scripts
        (take needed.new room.new)) }
    ensures first { result ≡ 1 → ForFiles files.now lengths.now (λ scripts.
        IsLineOf (IsFirstFault (newest_if version_3) first.now second.now scripts)
        (take needed.new room.new)) }
    ensures second { result ≡ 6 → ForFiles files.now lengths.now (λ scripts.
        IsLineOf (IsSecondFault (newest_if version_3) first.now second.now scripts)
        (take needed.new room.new)) }
    ensures short { result ≡ 2 → ForFiles files.now lengths.now (λ scripts.
        IsTooShort room.new needed.new
        (IsComparisonOf (newest_if version_3) first.now second.now scripts)) }
    ensures memory { result ≡ 3 → needed.new ≡ 0 }
    ensures line { result ≡ 4 → ForFiles files.now lengths.now (λ scripts.
        IsTooShort room.new needed.new
        (IsLineOf (IsEitherFault (newest_if version_3) first.now second.now scripts))) }
    ensures no_files { result ≡ 5 → (scripts : Files) → ¬ AreFiles files.now lengths.now scripts }
    ensures nothing { result ≡ 5 → needed.new ≡ 0 }
    ensures room { IsRoomAfter result needed.new room.old room.new }
    ensures length { length room.new ≡ length room.old }
{
    *needed = 0;
    let newest = newest(version_3);
    match scripts_in(alloc, files, lengths) {
        Ok(Some(scripts)) => compare(alloc, newest, first, second, &scripts, room, needed),
        Ok(None) => NO_FILES,
        Err(_) => NO_MEMORY,
    }
}
