//! How often an actor woke and waited, and the greatest of its counts.
ghost use Rattle.std.specs.Prelude.{◌≡◌, ◌≤◌};
ghost use Rattle.sqs_model.specs.Answers.{most_count};
ghost use Rattle.sqs_model.specs.Counts.{actor_count};

use super::Actor;

impl Actor {
    /// The number of its wakes so far.
    pub fn wakes(&self) -> u64
        ensures { result ≡ self.now.wakes }
    {
        self.life.wakes
    }

    /// The number of its polls that have waited.
    pub fn polls(&self) -> u64
        ensures { result ≡ self.now.polls }
    {
        self.life.polls
    }

    /// The greatest of its counts: of its wakes, polls, transfers and words.
    pub fn greatest_count(&self) -> u64
        ensures count { result ≡ actor_count self.now }
        ensures limit { result ≤ most_count }
    {
        let words = self.life.draws.taken();
        self.life
            .wakes
            .max(self.life.polls.max(self.life.sent.max(words)))
    }
}
