//! Laws of the texts. The functions do nothing: their contracts are the laws.
ghost use Rattle.sqs_formats.specs.Parts.{LinesJoin};
ghost use Rattle.sqs_formats.specs.Versions.{VersionsStay};

/// A log may be written in parts: the lines of two lists of records together are those of the
/// first, followed by those of the second.
pub fn lines_join()
    ensures { LinesJoin }
{}

/// Versions stay. If newer versions may be read, a text of an older one is the same scenario as
/// before, or has the same first fault. Only a version that could not be read may be read then.
pub fn versions_stay()
    ensures { VersionsStay }
{}
