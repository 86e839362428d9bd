//! Script files as a page hands them over.
ghost use Rattle.std.specs.Prelude.{◌≡◌, ◌++◌, ◌+◌, ◌<◌, IfNone, IfOk, IfSome, MatchOption, length};
ghost use Rattle.sqs_formats.specs.Actors.{Files};
ghost use Rattle.sqs_page.specs.Files.{AreFiles};

use sim_scenario::Scripts;
use sqs_message::Text;
use std::alloc::{AllocError, Global};

/// How many bytes the name of a script file has, and how many the file.
#[repr(C)]
pub struct FileLengths {
    /// The bytes of the name.
    pub name: u64,
    /// The bytes of the file.
    pub file: u64,
}

// The name of the first file in these bytes, the file, and what follows it; none if the bytes are
// fewer than its lengths.
fn first<'a>(bytes: &'a [u8], lengths: &FileLengths) -> Option<(&'a [u8], &'a [u8], &'a [u8])>
    ensures parts { IfSome result (λ p. bytes.now ≡ p.0.now ++ (p.1.now ++ p.2.now)) }
    ensures name { IfSome result (λ p. length p.0.now ≡ lengths.now.name) }
    ensures file { IfSome result (λ p. length p.1.now ≡ lengths.now.file) }
    ensures none { IfNone result (length bytes.now < lengths.now.name + lengths.now.file) }
{
    let (name, rest) = bytes.split_at_checked(lengths.name as usize)?;
    let (file, rest) = rest.split_at_checked(lengths.file as usize)?;
    Some((name, file, rest))
}

// A file with its name.
fn named(alloc: Global, name: &[u8], file: &[u8]) -> Result<(Text, Text), AllocError>
    ensures { IfOk result (λ f. f ≡ (name.now, file.now)) }
{
    let name = name.to_vec(alloc)?;
    let file = file.to_vec(alloc)?;
    Ok((Text::new(name), Text::new(file)))
}

/// The script files in these bytes, by their lengths; none if the lengths are not those of files in
/// the bytes. It fails if memory runs out.
pub fn scripts_in(
    alloc: Global,
    bytes: &[u8],
    lengths: &[FileLengths],
) -> Result<Option<Scripts>, AllocError>
    ensures { IfOk result (λ found. MatchOption found
        ((files : Files) → ¬ AreFiles bytes.now lengths.now files)
        (AreFiles bytes.now lengths.now)) }
{
    let mut files = Vec::new(alloc);
    let mut left = bytes;
    for one in lengths {
        let Some((name, file, rest)) = first(left, one) else {
            return Ok(None);
        };
        files.push(named(alloc, name, file)?)?;
        left = rest;
    }
    if left.is_empty() {
        Ok(Some(Scripts::new(files)))
    } else {
        Ok(None)
    }
}
