//! A scenario's text, parsed, before its script files are known.
ghost use Rattle.std.specs.Prelude.{◌≡◌, IfOk};
ghost use Rattle.std.specs.Result.{result_map_both};
ghost use Rattle.toml.specs.View.{table_view};
ghost use Rattle.sqs_formats.specs.Scenario.{scenario_of, scenario_upto, script_names as the_script_names};
ghost use Rattle.sim_scenario.specs.Drafts.{IsDraftOf, IsDraftUpto, OfDraft, draft_of, newest_of};
ghost use Rattle.sim_scenario.specs.Gives.{Gives};
ghost use Rattle.sim_scenario.specs.Ranges.{IsInRange};

use crate::fault::{ReadError, blame};
use crate::place::Place;
use crate::reader::document;
use crate::scenario::Scenario;
use crate::script_files::{actor_items, names_in};
use crate::scripted::Scripts;
use sim_clock::Refusal;
use sqs_message::Text;
use std::alloc::{AllocError, Global};
use toml::Table;

/// The newest version of scenarios that may be read.
#[derive(Clone, Copy)]
pub enum Newest {
    /// Version 2, if nothing else is asked for.
    Second,
    /// Version 3.
    Third,
}

impl Newest {
    // The number of that version.
    fn version(self) -> u64
        ensures { result ≡ newest_of self }
    {
        match self {
            Newest::Second => 2,
            Newest::Third => 3,
        }
    }
}

/// A scenario's text, parsed once: first for the names of its script files, and then, with these
/// files, for the scenario. A text that is too long or not TOML has a draft, too; `read` returns
/// its fault. In contracts `IsDraftOf` says of which text it is the draft.
#[derive(Drop)]
pub struct Draft {
    table: Result<Table, Refusal>,
    // The newest version that may be read.
    newest: u64,
}

// The table of a text's document, or why none is read in it.
fn table_of(alloc: Global, text: &[u8]) -> Result<Result<Table, Refusal>, AllocError>
    ensures { IfOk result (λ table.
        result_map_both table_view (λ refusal. refusal) table ≡ draft_of text.now) }
{
    if text.len() > 16_777_216 {
        return Ok(Err(Refusal::TooMany));
    }
    match toml::table_from_slice(alloc, text) {
        Ok(table) => Ok(Ok(table)),
        Err(e) => {
            if e.is_memory() {
                return Err(AllocError);
            }
            Ok(Err(Refusal::NotToml))
        }
    }
}

impl Draft {
    /// The draft of a text, of which versions 1 and 2 may be read.
    ///
    /// # Errors
    ///
    /// `AllocError` if memory runs out.
    pub fn parse(alloc: Global, text: &[u8]) -> Result<Draft, AllocError>
        ensures { IfOk result (IsDraftOf text.now) }
    {
        Draft::parse_upto(alloc, Newest::Second, text)
    }

    /// The draft of a text, of which versions up to the newest one may be read.
    ///
    /// # Errors
    ///
    /// `AllocError` if memory runs out.
    pub fn parse_upto(alloc: Global, newest: Newest, text: &[u8]) -> Result<Draft, AllocError>
        ensures { IfOk result (IsDraftUpto (newest_of newest) text.now) }
    {
        let table = table_of(alloc, text)?;
        let newest = newest.version();
        Ok(Draft { table, newest })
    }

    /// The names of the script files that the actors of the text name, in their order; none if the
    /// text is no TOML document.
    ///
    /// # Errors
    ///
    /// `AllocError` if memory runs out.
    pub fn script_names(&self, alloc: Global) -> Result<Vec<Text>, AllocError>
        ensures { OfDraft self.now
            (λ newest text. IfOk result (λ v. v.items ≡ the_script_names text)) }
    {
        match &self.table {
            Ok(table) => names_in(alloc, actor_items(table)),
            Err(_) => Ok(Vec::new(alloc)),
        }
    }

    /// The scenario that the text states with its script files. The draft is used up, so that its
    /// table is dropped before the scenario is run.
    ///
    /// # Errors
    ///
    /// The first fault of the text. It is `TooMany` without a place if the text has more than 16
    /// MiB, and `NotToml` if it is no TOML document in UTF-8. Else it is the fault at the first
    /// place in the order of reading, such as `OutOfRange` at `version` if its version is newer
    /// than may be read. `Memory` if a growth is refused.
    pub fn read(self, alloc: Global, scripts: &Scripts) -> Result<Scenario, ReadError>
        ensures range { IfOk result IsInRange }
        ensures value { OfDraft self
            (λ newest text. Gives (λ s. s) result (scenario_upto newest scripts.now text)) }
    {
        let Draft { table, newest } = self;
        match table {
            Ok(table) => document(alloc, newest, scripts, &table),
            Err(refusal) => Err(blame(alloc, refusal, &Place::top(), "")),
        }
    }
}

/// The scenario that a text in TOML states with its script files. The errors are those of
/// `Draft::read`.
pub fn read(alloc: Global, text: &[u8], scripts: &Scripts) -> Result<Scenario, ReadError>
    ensures range { IfOk result IsInRange }
    ensures value { Gives (λ s. s) result (scenario_of scripts.now text.now) }
{
    Draft::parse(alloc, text)?.read(alloc, scripts)
}
