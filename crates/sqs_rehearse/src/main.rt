//! Rehearses networks of Amazon SQS queues. `run` writes a scenario's log, final queues and report.
//! `check` says whether a text is a scenario. `compare` compares the reports of two scenarios.
#![tactic(auto)]

use std::process::ExitCode;

fn main(rt: HostRuntime) -> ExitCode {
    sqs_shell::answer(&rt, &rt)
}
