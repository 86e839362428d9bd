//! Which fields `csv` writes in quotes.
ghost use Rattle.std.specs.Prelude.{◌≡◌};
ghost use Rattle.csv.specs.Writing.{default_writer, needs_byte, needs_quotes};

// Whether a byte makes a field need quotes.
fn calls_for_quotes(byte: u8) -> bool
    ensures { result ≡ needs_byte default_writer byte }
{
    byte == b',' || byte == b'"' || byte == b'\r' || byte == b'\n'
}

/// Whether a field needs quotes.
pub(crate) fn needs_quotes(field: &[u8]) -> bool
    ensures { result ≡ needs_quotes default_writer field.now }
{
    field.iter().any(|byte| calls_for_quotes(*byte))
}
