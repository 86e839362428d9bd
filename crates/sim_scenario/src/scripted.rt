//! An actor of a scenario's text that follows a script.
ghost use Rattle.std.specs.Prelude.{◌≡◌, ◌++◌, codes, find, map, option_map};
ghost use Rattle.std.specs.Str.{bytes_eq};
ghost use Rattle.sim_clock.specs.declared.refusal.Refusal.TheVariants.{BadScript};
ghost use Rattle.sqs_formats.specs.Actors.{actor_keys, calls_by, calls_in, script_fault, script_keys, scripted as the_scripted};
ghost use Rattle.sqs_formats.specs.Keys.{has, only, place_of};
ghost use Rattle.sim_scenario.specs.Gives.{Gives, Names};
ghost use Rattle.sim_scenario.specs.Sections.{table_of, HasOnly, key_place, file_of_name};

use crate::fault::ReadError;
use crate::key_type::KeyType;
use crate::names::is_script_name;
use crate::outline::Outline;
use crate::section::{ACTOR_KEYS, Section};
use sim_clock::Refusal;
use sim_script::{ScriptError, read_script};
use sqs_formats::{Home, ScriptFault};
use sqs_message::{Script, Text};
use sqs_model::Role;
use std::marker::Model;
use toml::Value;

/// The script files that a scenario may name: the name and the bytes of each. Contracts see the
/// list of these pairs. If two files have one name, the first is used.
#[derive(Drop)]
pub struct Scripts {
    files: Vec<(Text, Text)>,
}

impl Model for Scripts {
    ghost use Rattle.sqs_formats.specs.Actors.{Files};

    ghost Value = { Files };

    ghost view = { λ s. s.files.items };
}

impl Scripts {
    ghost use Rattle.std.specs.Prelude.{◌≡◌, find, option_map};
    ghost use Rattle.std.specs.Str.{bytes_eq};
    ghost use Rattle.sim_clock.specs.declared.refusal.Refusal.TheVariants.{BadScript};

    /// The script files with these names and bytes.
    pub fn new(files: Vec<(Text, Text)>) -> Scripts
        ensures { result ≡ files.items }
    {
        Scripts { files }
    }

    /// The first file with a name.
    fn file(&self, name: &[u8]) -> Option<&(Text, Text)>
        ensures { option_map (λ f. f.now) result
            ≡ find (λ file. bytes_eq file.0 name.now) self.now }
    {
        self.files.iter().find(|file| file.0.as_bytes() == name)
    }
}

/// The fault of the scenario that a script's fault is: at the script's place, followed by the
/// number of the record.
fn script_blame(section: &Section<'_>, fault: ScriptFault, key: &str) -> ReadError
    ensures { Names result (script_fault (place_of (table_of section.now) key.now) fault) }
{
    match fault.number {
        None => section.blame(fault.refusal, key),
        Some(number) => match format!(in section.alloc; "{key}:{number}") {
            Ok(key) => section.blame(fault.refusal, key.as_str()),
            Err(_) => ReadError::Memory,
        },
    }
}

/// The calls of a script for an actor's queue; its faults get a place.
fn calls_of(section: &Section<'_>, home: &Home, text: &[u8], key: &str) -> Result<Script, ReadError>
    ensures { Gives (λ s. s) result (calls_in home.now (place_of
        (table_of section.now) key.now) text.now) }
{
    match read_script(section.alloc, text, home) {
        Ok(calls) => Ok(Script::new(calls)),
        Err(ScriptError::Memory) => Err(ReadError::Memory),
        Err(ScriptError::Fault(fault)) => Err(script_blame(section, fault, key)),
    }
}

/// A script in the actor's own table.
#[derive(Drop)]
struct OwnScript<'h> {
    home: &'h Home,
}

impl KeyType for OwnScript<'_> {
    type Value = Script;

    ghost use Rattle.sqs_formats.specs.Actors.{calls};

    ghost says = { λ k. calls k.home.now };

    #[tactic(auto, unfolding(sqs_formats::specs::Actors::calls, sqs_formats::specs::Reading::and_then))]
    fn read(&self, section: &Section<'_>, value: &Value, key: &str) -> Result<Script, ReadError> {
        let text = section.text(value, key)?;
        calls_of(section, self.home, text.as_bytes(), key)
    }
}

/// The script file with a name, which must exist.
fn file_named<'s>(
    section: &Section<'_>,
    scripts: &'s Scripts,
    name: &str,
    key: &str,
) -> Result<&'s (Text, Text), ReadError>
    ensures { Gives (λ file. file.now) result (file_of_name scripts.now name.now
        (key_place section.now key.now)) }
{
    match scripts.file(name.as_bytes()) {
        Some(file) => Ok(file),
        None => Err(section.blame(Refusal::BadScript, key)),
    }
}

/// The name of a script file.
#[derive(Drop)]
struct ScriptFile<'h> {
    scripts: &'h Scripts,
    home: &'h Home,
}

impl KeyType for ScriptFile<'_> {
    type Value = Script;

    ghost use Rattle.sqs_formats.specs.Actors.{script_file};

    ghost says = { λ k. script_file k.scripts.now k.home.now };

    #[tactic(auto, unfolding(sqs_formats::specs::Actors::script_file, sqs_formats::specs::Reading::and_then))]
    fn read(&self, section: &Section<'_>, value: &Value, key: &str) -> Result<Script, ReadError> {
        let name = section.text(value, key)?;
        if !is_script_name(name.as_bytes()) {
            return Err(section.blame(Refusal::OutOfRange, key));
        }
        let file = file_named(section, self.scripts, name, key)?;
        calls_of(section, self.home, file.1.as_bytes(), key)
    }
}

/// The calls in the actor's own table or in a script file.
#[tactic(auto, unfolding(sqs_formats::specs::Actors::calls_by))]
fn calls(
    is_file: bool,
    scripts: &Scripts,
    home: &Home,
    section: &Section<'_>,
) -> Result<Script, ReadError>
    ensures { Gives (λ s. s) result (calls_by is_file scripts.now home.now (table_of section.now)) }
{
    if is_file {
        section.required("script", &ScriptFile { scripts, home })
    } else {
        section.required("calls", &OwnScript { home })
    }
}

/// The keys of an actor that follows a script.
fn script_keys(has_calls: bool) -> &'static [&'static str]
    ensures { map (λ k. k.now) result.now ≡ script_keys has_calls }
{
    if has_calls {
        &["calls"]
    } else {
        &["calls", "script"]
    }
}

/// Checks that an actor that follows a script has known keys alone.
fn known_script_keys(section: &Section<'_>) -> Result<(), ReadError>
    ensures { HasOnly (actor_keys
        ++ script_keys (has (table_of section.now) (codes "calls"))) section.now result }
{
    let own = script_keys(section.has("calls"));
    section.only(&[ACTOR_KEYS, own])
}

/// An actor that follows a script.
#[tactic(auto, unfolding(sqs_formats::specs::Reading::and_then))]
pub(crate) fn scripted(
    scripts: &Scripts,
    outline: &Outline,
    home: u32,
    section: &Section<'_>,
) -> Result<Role, ReadError>
    ensures { Gives (λ r. r) result (the_scripted scripts.now outline.now home
        (table_of section.now)) }
{
    known_script_keys(section)?;
    let home = outline.home(section.alloc, home)?;
    let calls = calls(section.has("script"), scripts, &home, section)?;
    Ok(Role::Script(calls))
}
