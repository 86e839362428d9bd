//! Tasks by their numbers and by their indices.
ghost use Rattle.std.specs.Prelude.{position, ◌≡◌};
ghost use Rattle.sqs_model.specs.Site.{is_task};
ghost use Rattle.sim_site.specs.Reading.{IsPlaceOfFirst};

use crate::agents::Task;

// The index of the first task with a number.
fn first_task(tasks: &[Task], number: u32) -> Option<usize>
    ensures { result ≡ position (is_task number) tasks.now }
{
    tasks.iter().position(|t| t.number() == number)
}

/// The same; the contract says more of the list.
pub fn place_of_task(tasks: &[Task], number: u32) -> Option<usize>
    ensures { IsPlaceOfFirst (is_task number) tasks.now result }
{
    first_task(tasks, number)
}
