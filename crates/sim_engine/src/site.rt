//! What a site must provide.
ghost use Rattle.std.specs.Prelude.{◌++◌, ◌≡◌, ◌≤◌, IfErr, OnOk, Some};
ghost use Rattle.sim_engine.specs.Engine.{Engine};
ghost use Rattle.sim_engine.specs.Laws.{Conditions, SiteLaws};
ghost use Rattle.sim_engine.specs.Limits.{Stops, most_count};
ghost use Rattle.sim_engine.specs.World.{least_due};

use crate::effects::Effects;
use sim_clock::{Key, Refusal};

/// A part of a world, for example a queue with its actors, a server or a counter. Entries become
/// due there and are handled one after another, in the order of their keys. A handling makes rows,
/// which report it, and sends transfers, which arrive at other sites later.
pub trait Site: Drop {
    /// What a handling reports.
    type Row: Drop;

    /// What a site sends to other sites.
    type Transfer: Drop;

    // What is done with sites, rows and transfers.
    ghost engine: { Engine Self Self.Row Self.Transfer };

    // What sites and transfers are like at every step of a run.
    ghost conditions: { Conditions Self Self.Transfer };

    /// The key of a transfer's arrival.
    fn transfer_key(transfer: &Self::Transfer) -> Key
        ensures { result ≡ engine.transfer_key transfer.now };

    /// The number of the site that receives a transfer.
    fn to(transfer: &Self::Transfer) -> u32
        ensures { result ≡ engine.to transfer.now };

    /// The key of the handling that made a row.
    fn row_key(row: &Self::Row) -> Key
        ensures { result ≡ engine.row_key row.now };

    /// The number of the site at which a row was made.
    fn row_site(row: &Self::Row) -> u32
        ensures { result ≡ engine.row_site row.now };

    /// The number of the site.
    fn number(&self) -> u32
        ensures { result ≡ engine.number self.now };

    /// The key of the next entry due.
    fn least_due(&self) -> Option<Key>
        ensures { result ≡ least_due engine self.now };

    /// Puts a transfer on its way to the site.
    ///
    /// # Errors
    ///
    /// Only `Memory`, if memory runs out; nothing is promised of the site after it.
    fn accept(&mut self, transfer: Self::Transfer) -> Result<(), Refusal>
        ensures accepted { OnOk result (self.new ≡ engine.accepted transfer self.old) }
        ensures memory { IfErr result (λ refusal. refusal ≡ Refusal.Memory) };

    /// Handles the least entry due, at a moment in milliseconds, and appends the rows and transfers
    /// that this makes to `effects`.
    ///
    /// # Errors
    ///
    /// `Memory` if a growth is refused, and `CountLimit` only if the handling takes a count past
    /// 2^62 - 1. After an error nothing is promised of the site, and some of the handling's rows
    /// and transfers may have been appended.
    fn handle_into(
        &mut self,
        key: Key,
        effects: &mut Effects<Self::Row, Self::Transfer>,
    ) -> Result<(), Refusal>
        requires due { least_due engine self.old ≡ Some key }
        requires moment { key.at ≤ most_count }
        requires past { conditions.Past key.at self.old }
        ensures site { OnOk result (self.new ≡ (engine.handled key self.old).site) }
        ensures rows { OnOk result (effects.new.rows.items
            ≡ effects.old.rows.items ++ (engine.handled key self.old).rows) }
        ensures sent { OnOk result (effects.new.sent.items
            ≡ effects.old.sent.items ++ (engine.handled key self.old).sent) }
        ensures stops { IfErr result (Stops engine (engine.handled key self.old)) };

    // What handlings and deliveries keep.
    ghost laws: { SiteLaws engine conditions };
}
