//! Sinks of rows.
ghost use Rattle.std.specs.Prelude.{◌≡◌, ◌++◌, [], IfErr, List, OnOk};
ghost use Rattle.sim_clock.specs.declared.refusal.Refusal.{Refusal as TheRefusal};

use sim_clock::Refusal;

/// Takes the rows of a run in order, some at a time, until it returns an error.
pub trait RowSink<R> {
    // The sink has not broken.
    ghost ready: { Self → Type 0 };

    // The sink before and after it took all of these rows.
    ghost took: { Self → List R → Self → Type 0 };

    // The sink before and after it broke at these rows, of which it took a prefix.
    ghost broke: { Self → List R → TheRefusal → Self → Type 0 };

    /// Takes rows.
    ///
    /// # Errors
    ///
    /// The error that ends the run. The sink took a prefix of the rows, and it is not called again.
    fn take(&mut self, rows: &[R]) -> Result<(), Refusal>
        requires { ready self.old }
        ensures ready { OnOk result (ready self.new) }
        ensures took { OnOk result (took self.old rows.now self.new) }
        ensures broke { IfErr result (λ refusal. broke self.old rows.now refusal self.new) };

    // A sink that did not change took nothing.
    ghost unchanged: { (sink : Self) → took sink [] sink };

    // Taking some rows and then others is taking all of them together.
    ghost took_both: { (a b c : Self) (xs ys : List R) → took a xs b → took b ys c → took a (xs ++ ys) c };

    // If it breaks at some rows, it breaks at these and those that it took before, together.
    ghost broke_later: { (a b c : Self) (xs ys : List R) (refusal : TheRefusal) →
        took a xs b → broke b ys refusal c → broke a (xs ++ ys) refusal c };
}
