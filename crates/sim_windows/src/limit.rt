//! A sink that takes a limited number of rows.
ghost use Rattle.std.specs.Prelude.{◌≡◌, ◌+◌, ◌<◌, length, IfErr, OnErr, OnOk};
ghost use Rattle.sim_clock.specs.declared.refusal.Refusal.TheVariants.{Write};

use crate::sink::RowSink;
use sim_clock::Refusal;

/// Takes up to `left` rows and keeps none of them, like a writer that becomes full. It is for tests
/// of what a run leaves if its sink fails. If it gets more rows than `left`, it takes none of them
/// and returns `Write`.
#[derive(Drop)]
pub struct Limit {
    /// The number of rows that it still takes.
    pub left: u64,
}

impl<R> RowSink<R> for Limit {
    ghost use Rattle.sim_windows.specs.Limits.{Broke, Took};
    ghost use Rattle.sim_windows.specs.Laws.{broke_later, took_both, took_none};

    ghost ready = { λ _. Unit {0} };

    ghost took = { λ before rows after. Took before rows after };

    ghost broke = { λ before rows refusal _. Broke before rows refusal };

    fn take(&mut self, rows: &[R]) -> Result<(), Refusal>
        ensures ready { OnOk result (Unit {0}) }
        ensures took { OnOk result (Took self.old rows.now self.new) }
        ensures broke { IfErr result (λ refusal. Broke self.old rows.now refusal) }
        ensures none { OnErr result (self.new.left ≡ self.old.left) }
    {
        let count = rows.len() as u64;
        if count > self.left {
            return Err(Refusal::Write);
        }
        self.left -= count;
        Ok(())
    }

    ghost unchanged = { λ sink. took_none R sink };

    ghost took_both = { λ a b c xs ys first second. took_both a b c xs ys first second };

    ghost broke_later = { λ a b _ xs ys refusal first second. broke_later a b xs ys refusal first second };
}
