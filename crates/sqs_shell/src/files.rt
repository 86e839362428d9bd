//! The files of the program: a scenario and its scripts, and buffered writers.
ghost use Rattle.std.specs.Prelude.{◌≡◌, IfOk, IfSome, false, option_map, string_bytes};
ghost use Rattle.sim_records.specs.Writers.{has_failed};
ghost use Rattle.sqs_command_line.specs.Lines.{told};
ghost use Rattle.sqs_shell.specs.Inputs.{file_named, input_stop, newest_of, script_path};

use crate::faults::{Stop, write_refusal};
use sim_clock::Refusal;
use sim_records::ToWriter;
use sim_scenario::{Draft, Newest, Scripts};
use sqs_message::Text;
use std::alloc::{AllocError, Global};
use std::fs::File;
use std::io::{self, BufWriter, ErrorKind, Read, Write};
use std::str;

/// The greatest number of reads that the program makes of one input.
const MOST_READS: u32 = 33_554_432;

/// The draft of a scenario's text, and the scripts that it names.
#[derive(Drop)]
pub struct Inputs {
    pub draft: Draft,
    pub scripts: Scripts,
}

/// A buffered writer around this one.
pub fn buffered<'a, W: Write + Drop>(
    rt: &HostRuntime,
    writer: W,
) -> Result<ToWriter<BufWriter<W>>, Stop<'a>>
    ensures { IfOk result (λ out. has_failed out ≡ false) }
{
    match BufWriter::new(rt.alloc(), writer) {
        Ok(writer) => Ok(ToWriter::new(writer)),
        Err(error) => Err(Stop::from(write_refusal(&error))),
    }
}

/// Why an input can't be read.
#[derive(Drop)]
pub enum InputError {
    /// Memory was refused.
    Memory,
    /// It can't be read.
    Unreadable,
}

impl From<io::Error> for InputError {
    ghost use Rattle.std.specs.Prelude.{◌≡◌};
    ghost use Rattle.std.specs.IoError.{error_kind};
    ghost use Rattle.sqs_shell.specs.Inputs.{input_error};

    ghost from_gives = { λ error fault. fault ≡ input_error (error_kind error) };

    fn from(error: io::Error) -> InputError {
        match error.kind() {
            ErrorKind::OutOfMemory => InputError::Memory,
            _ => InputError::Unreadable,
        }
    }
}

impl From<AllocError> for InputError {
    ghost use Rattle.std.specs.Prelude.{◌≡◌};
    ghost use Rattle.sqs_shell.specs.declared.files.InputError.TheVariants.{Memory};

    ghost from_gives = { λ _ fault. fault ≡ Memory };

    fn from(_refused: AllocError) -> InputError {
        InputError::Memory
    }
}

// Why the program stops if the input with this path can't be read.
fn stopped<'a>(error: InputError, path: &'a str) -> Stop<'a>
    ensures { result ≡ input_stop error path.entry }
{
    match error {
        InputError::Memory => Stop::from(Refusal::Memory),
        InputError::Unreadable => Stop::CannotRead(path),
    }
}

// All bytes that a reader has left.
fn bytes_of<R: Read>(alloc: Global, reader: &mut R) -> Result<Vec<u8>, InputError>
    ensures { IfOk result (λ bytes. IfSome (R.remaining reader.old) (λ left. bytes.items ≡ left)) }
{
    let mut bytes = Vec::new(alloc);
    let mut piece = [0; 4096];
    for _ in 0..MOST_READS {
        let count = reader.read(&mut piece)?;
        if count == 0 {
            return Ok(bytes);
        }
        bytes.extend_from_slice(&piece[..count])?;
    }
    Err(InputError::Unreadable)
}

/// The file that a path names, if it names one: `-` stands for standard input or output.
pub fn file_named(path: Option<&str>) -> Option<&str>
    ensures { told result ≡ file_named (told path.entry) }
{
    match path {
        Some("-") => None,
        other => other,
    }
}

// All bytes of a file.
fn file(rt: &HostRuntime, path: &str) -> Result<Vec<u8>, InputError> {
    let mut file = File::open(rt, path)?;
    bytes_of(rt.alloc(), &mut file)
}

// The scenario's text, from a file or else from standard input.
fn scenario<'a>(rt: &HostRuntime, path: Option<&'a str>) -> Result<Vec<u8>, Stop<'a>> {
    let text = match file_named(path) {
        Some(path) => file(rt, path),
        None => bytes_of(rt.alloc(), &mut rt.stdin()),
    };
    match text {
        Ok(text) => Ok(text),
        Err(error) => Err(stopped(error, path.unwrap_or("-"))),
    }
}

// The path of a script in a folder; `.` if none is given.
fn script_path(alloc: Global, folder: Option<&str>, name: &str) -> Result<String, AllocError>
    ensures { IfOk result
        (λ path. string_bytes path ≡ script_path (option_map (λ f. f.now) folder.entry) name.now) }
{
    let folder = folder.unwrap_or(".");
    format!(in alloc; "{folder}/{name}")
}

// The scripts with these names in a folder; those that can't be read are left out.
fn scripts<'a>(
    rt: &HostRuntime,
    names: Vec<Text>,
    folder: Option<&str>,
) -> Result<Scripts, Stop<'a>> {
    let mut files = Vec::new(rt.alloc());
    for name in names {
        let Ok(letters) = str::from_utf8(name.as_bytes()) else {
            continue;
        };
        let path = script_path(rt.alloc(), folder, letters)?;
        match file(rt, path.as_str()) {
            Ok(bytes) => files.push((name, Text::new(bytes)))?,
            Err(InputError::Memory) => return Err(Stop::from(Refusal::Memory)),
            Err(InputError::Unreadable) => {}
        }
    }
    Ok(Scripts::new(files))
}

/// The newest version of scenarios that is read, by whether version 3 is asked for.
fn newest(version_3: bool) -> Newest
    ensures { result ≡ newest_of version_3 }
{
    if version_3 {
        Newest::Third
    } else {
        Newest::Second
    }
}

/// Reads a scenario from a file, or else or for `-` from standard input, and its scripts from a folder.
/// Version 3 is read only if it is asked for.
pub fn read_inputs<'a>(
    rt: &HostRuntime,
    path: Option<&'a str>,
    folder: Option<&str>,
    version_3: bool,
) -> Result<Inputs, Stop<'a>> {
    let text = scenario(rt, path)?;
    let draft = Draft::parse_upto(rt.alloc(), newest(version_3), text.as_slice())?;
    let names = draft.script_names(rt.alloc())?;
    let scripts = scripts(rt, names, folder)?;
    Ok(Inputs { draft, scripts })
}
