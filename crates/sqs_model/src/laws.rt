//! Laws about the definitions that the code of other crates relies on. Each function does nothing:
//! its contract is the law.
ghost use Rattle.sqs_model.specs.Accounts.{EachKeepsOnePlace, NoOtherComesIn};
ghost use Rattle.sqs_model.specs.Limits.{CountsOnlyGrow};
ghost use Rattle.sqs_model.specs.Delivery.{HandlingApartFromDelivery, SortedSitesStaySorted};
ghost use Rattle.sqs_model.specs.Giving.{GivingIsGivingThenReturning};
ghost use Rattle.sqs_model.specs.World.{DeliveryInAnyOrder};
ghost use Rattle.sqs_model.specs.NoneBefore.{HandlingLeavesNoneBefore, HandlingMakesNothingDueNow};
ghost use Rattle.sqs_model.specs.Simulated.{ScenariosAreSimulated};
ghost use Rattle.sqs_model.specs.Turns.{TurnsEnd};
ghost use Rattle.sqs_model.specs.Ways.{AcceptingKeepsWays, HandlingGoesAlongWays, OpeningHasWays};
ghost use Rattle.sqs_model.specs.Progress.{HandlingKeepsTime, HandlingMovesOn, HandlingStaysRecent, OpeningIsSound};
ghost use Rattle.sqs_model.specs.World.{RunEnds};

/// Handling an entry reduces the number of entries due by its moment, and never increases the
/// number due by any earlier moment. What it sends arrives later.
pub fn handling_moves_on()
    ensures { HandlingMovesOn }
{}

/// If a queue has no deduplication entry from after a moment, it has none after a handling at that
/// moment.
pub fn handling_stays_recent()
    ensures { HandlingStaysRecent }
{}

/// Every sound scenario opens with sound sites, for which `handling_moves_on` holds.
pub fn opening_is_sound()
    ensures { OpeningIsSound }
{}

/// So the one-list run of every sound scenario ends.
pub fn run_ends()
    ensures { RunEnds }
{}

/// The order in which transfers are delivered makes no difference.
pub fn delivery_in_any_order()
    ensures { DeliveryInAnyOrder }
{}

/// Delivering a transfer before or after the handling of another key gives the same.
pub fn handling_apart_from_delivery()
    ensures { HandlingApartFromDelivery }
{}

/// Transfers on their way stay in the order of their keys, as `handling_apart_from_delivery`
/// requires.
pub fn sorted_sites_stay_sorted()
    ensures { SortedSitesStaySorted }
{}

/// The counts of a site only grow, whatever is handled there. So a count that passes its limit
/// during a handling is past it at the end, too.
pub fn counts_only_grow()
    ensures { CountsOnlyGrow }
{}

/// A handling at a moment leaves no message that was enqueued after that moment, and sends none
/// that was enqueued after its arrival.
pub fn handling_keeps_time()
    ensures { HandlingKeepsTime }
{}

/// In the one-list run of every scenario whose queues are all there, every accepted message is in
/// exactly one place at every step. It is in one queue or on one way, or it was deleted or has
/// expired.
pub fn each_keeps_one_place()
    ensures { EachKeepsOnePlace }
{}

/// No message is anywhere in that run that was not accepted.
pub fn no_other_comes_in()
    ensures { NoOtherComesIn }
{}

/// A handling at a site sends only along the ways of the site, by agents of the site. What it sends
/// arrives at least a way's least latency later. Its rows have the handled key and the site's
/// queue. The site keeps its ways.
pub fn handling_goes_along_ways()
    ensures { HandlingGoesAlongWays }
{}

/// A site keeps its ways when a transfer comes that fits them, as those do that
/// `handling_goes_along_ways` is about.
pub fn accepting_keeps_ways()
    ensures { AcceptingKeepsWays }
{}

/// Every sound scenario opens with sites that send only along its ways, each of which takes at
/// least a millisecond.
pub fn opening_has_ways()
    ensures { OpeningHasWays }
{}

/// Handling the least entry due of a site leaves nothing due there that comes before it in the
/// order of keys.
pub fn handling_leaves_none_before()
    ensures { HandlingLeavesNoneBefore }
{}

/// A handling at a moment makes nothing due at its site at that moment or before: if nothing was
/// due before it, all that becomes due is later.
pub fn handling_makes_nothing_due_now()
    ensures { HandlingMakesNothingDueNow }
{}

/// An actor's turn ends: after an answer it decides at most three times, and the last decision is
/// to do nothing.
pub fn turns_end()
    ensures { TurnsEnd }
{}

/// Every sound scenario is one that the engine can run. Every run of it in partitions, whatever is
/// picked, gives the result of its one-list run, whose rows are in the order of their keys.
pub fn scenarios_are_simulated()
    ensures { ScenariosAreSimulated }
{}

/// Messages that are given one by one, each back before the next with a timeout of 0, are given as
/// if all were received first and then all came back.
pub fn giving_is_giving_then_returning()
    ensures { GivingIsGivingThenReturning }
{}
