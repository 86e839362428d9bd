//! Rows are handed on only if no count in them is past the limit.
ghost use Rattle.std.specs.Prelude.{◌≡◌, ◌≤◌, IfOk, nat_le};
ghost use Rattle.std.specs.List.{list_all};
ghost use Rattle.sqs_model.specs.Answers.{most_count};
ghost use Rattle.sqs_model.specs.Counts.{receipt_count};
ghost use Rattle.sqs_model.specs.Limits.{sites_count};

use sim_clock::Refusal;
use sim_site::Site;
use sim_windows::RowSink;
use sqs_message::{Row, RowReceipt};
use sqs_model::MOST_COUNT;

/// A sink in front of another one. It refuses rows with `CountLimit` if one of them has a count
/// past 2^62 - 1; no queue makes such a row.
#[derive(Drop)]
pub struct Limited<'a, K> {
    /// The sink that gets the rows.
    pub sink: &'a mut K,
}

/// How often the message of a row was received, by the row's receipt.
pub fn count_of(row: &Row) -> u64
    ensures { result ≡ receipt_count row.now.receipt }
{
    match &row.receipt {
        RowReceipt::Made(receipt) => receipt.count,
        RowReceipt::Absent | RowReceipt::Given(_) => 0,
    }
}

// Whether no row has a count past the limit.
fn are_within(rows: &[Row]) -> bool
    ensures { result ≡ list_all (λ r. nat_le (receipt_count r.receipt) most_count) rows.now }
{
    rows.iter().all(|row| count_of(row) <= MOST_COUNT)
}

impl<K: RowSink<Row>> RowSink<Row> for Limited<'_, K> {
    ghost use Rattle.sqs_rehearsal.specs.Limited.{BrokeWithin, TookWithin};
    ghost use Rattle.sqs_rehearsal.specs.LimitLaws.{broke_after, took_after, took_none};

    ghost ready = { λ limited. K.ready limited.sink.now };

    ghost took = { λ before rows after. TookWithin K.took before rows after };

    ghost broke = { λ before rows refusal after. BrokeWithin K.took K.broke before rows refusal after };

    fn take(&mut self, rows: &[Row]) -> Result<(), Refusal> {
        if !are_within(rows) {
            return Err(Refusal::CountLimit);
        }
        self.sink.take(rows)
    }

    ghost unchanged = { λ limited. took_none K.took K.unchanged limited };

    ghost took_both = { λ a b c xs ys first second. took_after K.took K.took_both a b c xs ys first second };

    ghost broke_later = { λ a b c xs ys refusal first second. broke_after K.took K.took_both K.broke K.broke_later a b c xs ys refusal first second };
}

// The greatest count that these sites have reached.
fn greatest_of(sites: &[Site]) -> u64
    ensures count { result ≡ sites_count sites.now }
    ensures limit { result ≤ most_count }
{
    let mut most = 0;
    for site in sites {
        most = site.greatest_count().max(most);
    }
    most
}

/// The result of a run. If that is its last sites, none of their counts is past the limit.
pub fn counted(ran: Result<Vec<Site>, Refusal>) -> Result<Vec<Site>, Refusal>
    ensures same { result ≡ ran }
    ensures within { IfOk result (λ sites. sites_count sites.items ≤ most_count) }
{
    if let Ok(sites) = &ran {
        let _ = greatest_of(sites);
    }
    ran
}
