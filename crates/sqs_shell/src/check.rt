//! Checks whether a text is a scenario.
use crate::faults::{Stop, tell, write_refusal};
use crate::files::{Inputs, read_inputs};
use sim_scenario::least_latency;
use sqs_command_line::CheckLine;
use std::process::ExitCode;

// Reads a scenario and prints how many queues, actors and tasks it has.
fn checked<'a>(rt: &HostRuntime, asked: CheckLine<'a>) -> Result<(), Stop<'a>> {
    let inputs = read_inputs(rt, asked.scenario, asked.scripts, asked.version_3)?;
    let Inputs { draft, scripts } = inputs;
    let scenario = draft.read(rt.alloc(), &scripts)?;
    let queues = scenario.queues().len();
    let actors = scenario.actors().len();
    let tasks = scenario.tasks().len();
    let least = least_latency(&scenario);
    match println!(rt; "ok queues={queues} actors={actors} tasks={tasks} least={least}") {
        Ok(()) => Ok(()),
        Err(error) => Err(Stop::from(write_refusal(&error))),
    }
}

/// Prints `ok`, how many queues, actors and tasks a scenario has, and its least latency in
/// milliseconds.
pub fn check(rt: &HostRuntime, asked: CheckLine<'_>) -> ExitCode {
    match checked(rt, asked) {
        Ok(()) => ExitCode::SUCCESS,
        Err(stop) => tell(rt, stop),
    }
}
