//! Names of queues, agents and script files.
ghost use Rattle.std.specs.Prelude.{◌≡◌, IfSome, false, is_some};
ghost use Rattle.std.specs.List.{list_all};
ghost use Rattle.sqs_formats.specs.Names.{begins_with_dot, is_agent_name, is_fifo, is_name_byte, is_queue_name, is_script_byte, is_script_name, stem};

/// Whether a byte may be in the name of an agent.
fn is_name_byte(byte: u8) -> bool
    ensures { result ≡ is_name_byte byte }
{
    byte.is_ascii_alphanumeric() || byte == b'-' || byte == b'_'
}

/// Whether all bytes may be in the name of an agent.
fn are_name_bytes(bytes: &[u8]) -> bool
    ensures { result ≡ list_all is_name_byte bytes.now }
{
    bytes.iter().all(|byte| is_name_byte(*byte))
}

/// Whether these bytes are the name of an actor or a task.
pub(crate) fn is_agent_name(name: &[u8]) -> bool
    ensures { result ≡ is_agent_name name.now }
{
    let length = name.len();
    1 <= length && length <= 80 && are_name_bytes(name)
}

/// Whether all bytes may be in the name of a script file.
fn are_script_bytes(bytes: &[u8]) -> bool
    ensures { result ≡ list_all is_script_byte bytes.now }
{
    bytes
        .iter()
        .all(|byte| is_name_byte(*byte) || *byte == b'.')
}

/// Whether these bytes begin with a dot.
fn begins_with_dot(bytes: &[u8]) -> bool
    ensures { result ≡ begins_with_dot bytes.now }
{
    match bytes {
        [first, ..] => *first == b'.',
        [] => false,
    }
}

/// Whether these bytes are the name of a script file.
pub(crate) fn is_script_name(name: &[u8]) -> bool
    ensures { result ≡ is_script_name name.now }
{
    let length = name.len();
    1 <= length && length <= 80 && are_script_bytes(name) && !begins_with_dot(name)
}

/// The part of a FIFO queue's name before its suffix.
fn before_suffix(name: &[u8]) -> Option<&[u8]>
    ensures fifo { is_some result ≡ is_fifo name.now }
    ensures front { IfSome result (λ s. s.now ≡ stem name.now) }
    ensures whole { is_fifo name.now ≡ false → stem name.now ≡ name.now }
{
    name.strip_suffix(b".fifo")
}

/// Whether a name is that of a FIFO queue.
pub(crate) fn is_fifo(name: &[u8]) -> bool
    ensures { result ≡ is_fifo name.now }
{
    before_suffix(name).is_some()
}

/// Whether these bytes are the name of a queue.
pub(crate) fn is_queue_name(name: &[u8]) -> bool
    ensures { result ≡ is_queue_name name.now }
{
    let stem = match before_suffix(name) {
        Some(stem) => stem,
        None => name,
    };
    is_agent_name(stem) && name.len() <= 80
}
