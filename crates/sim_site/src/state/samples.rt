//! Samples of a queue's counts.
ghost use Rattle.std.specs.Prelude.{◌*◌, ◌+◌, ◌≡◌, ◌≢◌};
ghost use Rattle.sqs_model.specs.Step.{handle_sample};
ghost use Rattle.sim_site.specs.Effects.{Handles};

use super::Core;
use crate::handling::Handling;
use sim_clock::Refusal;
use sqs_message::{Detail, Row, RowAnswer, RowKind, RowReceipt};

impl Core {
    /// Samples a queue's counts, when the next sample is due. The only error is `Memory`.
    pub fn handle_sample(&mut self, handling: &mut Handling<'_>) -> Result<(), Refusal>
        requires sampled { self.old.sample ≢ 0 }
        requires due { handling.old.key.at ≡ self.old.sample * (self.old.samples + 1) }
        ensures { Handles result handling.old handling.new self.new
            (λ k. handle_sample k self.old) }
    {
        let counts = self.queue.counts();
        let site = self.queue.site();
        handling.effects.say(Row {
            key: handling.key,
            queue: site,
            agent: site,
            kind: RowKind::Sample,
            answer: RowAnswer::Ok,
            message: None,
            receipt: RowReceipt::Absent,
            detail: Detail::Counts {
                visible: counts.visible,
                in_flight: counts.in_flight,
                delayed: counts.delayed,
            },
        })?;
        self.samples += 1;
        Ok(())
    }
}
