//! The move tasks of a scenario's text.
ghost use Rattle.sqs_formats.specs.Keys.{only};
ghost use Rattle.sqs_formats.specs.Tasks.{task_keys};
ghost use Rattle.sim_scenario.specs.Gives.{Gives};
ghost use Rattle.sim_scenario.specs.Sections.{table_of};

use crate::fault::ReadError;
use crate::items::ItemType;
use crate::key_type::Integer;
use crate::named::{AgentName, OtherKinQueue, SourceQueue};
use crate::outline::Outline;
use crate::queues::{latency, latency_keys};
use crate::section::Section;
use sqs_message::Text;
use sqs_redrive::TaskSettings;

/// The keys of every move task.
const TASK_KEYS: &[&str] = &["name", "queue", "to", "per_second"];

/// Checks that a move task has known keys alone.
fn known_task_keys(version: u64, section: &Section<'_>) -> Result<(), ReadError>
    ensures { Gives (λ u. u) result (only (task_keys version) (table_of section.now)) }
{
    section.only(&[TASK_KEYS, latency_keys(version)])
}

/// The move tasks of a text, each with its name.
#[derive(Drop)]
pub(crate) struct Tasks<'o> {
    pub(crate) outline: &'o Outline,
}

impl ItemType for Tasks<'_> {
    type Item = (Text, TaskSettings);

    ghost use Rattle.sqs_formats.specs.Tasks.{task};

    ghost says = { λ t. task t.outline.now };

    #[tactic(auto, unfolding(sqs_formats::specs::Tasks::task, sqs_formats::specs::Reading::and_then))]
    fn read(
        &self,
        number: usize,
        section: &Section<'_>,
    ) -> Result<(Text, TaskSettings), ReadError> {
        let outline = self.outline;
        let place = outline.task_place(number);
        let name = section.required(
            "name",
            &AgentName {
                outline,
                place,
                is_queue: false,
            },
        )?;
        let home = section.required("queue", &SourceQueue { outline })?;
        known_task_keys(outline.version(), section)?;
        let to = section.maybe("to", &OtherKinQueue { outline, home })?;
        let per_second = section.optional("per_second", &Integer(1, 500), 500)?;
        let latency = latency(outline.version(), section)?;
        let settings = TaskSettings {
            home,
            to,
            per_second,
            latency,
        };
        Ok((name, settings))
    }
}
