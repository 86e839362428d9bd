//! The calls that a line may make, and the arguments of each: a line that says anything else is not
//! played.
use crate::tests::words;

// Each call, the names of the arguments that it needs, and of those that it may also have.
const CALLS: &[(&str, &str, &str)] = &[
    ("send", "at body", "group id delay"),
    ("receive", "at max", "timeout hosts short"),
    ("look", "at max", "timeout hosts short"),
    ("delete", "at by", ""),
    ("change", "at by seconds", ""),
    ("release", "number", ""),
    ("expire", "at number", ""),
    ("redrive", "at body enqueued", "group"),
    ("move", "at body", "group"),
    ("forward", "at body", "group"),
    ("step", "max", "to"),
    ("site", "", ""),
    ("retention", "", ""),
    ("messages", "", ""),
    ("counts", "", ""),
    ("due", "", ""),
    ("available", "", ""),
];

// Whether a line makes one of the calls, with each argument that it needs and none that it does not
// have, and all of them can be read.
pub fn is_call(line: &str) -> bool {
    for (call, needed, optional) in CALLS {
        if *call == words::call(line) {
            return has_each(line, needed) && has_only(line, needed, optional);
        }
    }
    false
}

// Whether a line has an argument of each of these names.
fn has_each(line: &str, names: &str) -> bool {
    for name in names.split_whitespace() {
        if words::word(line, name).is_none() {
            return false;
        }
    }
    true
}

// Whether each word of a line but the first is an argument of one of these names.
fn has_only(line: &str, needed: &str, optional: &str) -> bool {
    for word in line.split_whitespace().skip(1) {
        if !is_argument(line, word, needed) && !is_argument(line, word, optional) {
            return false;
        }
    }
    true
}

// Whether a word is the only argument with its name, that name is one of these, and the value can
// be read.
fn is_argument(line: &str, word: &str, names: &str) -> bool {
    match word.split_once('=') {
        None => false,
        Some((name, value)) => {
            is_among(name, names) && words::word(line, name) == Some(value) && can_be(name, value)
        }
    }
}

// Whether a name is one of these.
fn is_among(name: &str, names: &str) -> bool {
    for one in names.split_whitespace() {
        if one == name {
            return true;
        }
    }
    false
}

// Whether the argument with a name may have this value. A text may be any.
fn can_be(name: &str, value: &str) -> bool {
    match name {
        "body" | "group" | "id" => true,
        "by" => is_receipt(value),
        "at" | "to" => is_number(value, u64::from(u32::MAX)),
        "hosts" => is_number(value, u64::from(u16::MAX)),
        "short" => is_number(value, 1),
        _ => is_number(value, u64::MAX),
    }
}

// Whether digits are a number that is at most `greatest`.
fn is_number(digits: &str, greatest: u64) -> bool {
    match digits.parse::<u64>() {
        Ok(number) => number <= greatest,
        Err(_) => false,
    }
}

// Whether a text has the form of a receipt, in which any number may be 0.
fn is_receipt(text: &str) -> bool {
    let mut parts = text.split('-');
    parts.next() == Some("r")
        && is_number(parts.next().unwrap_or(""), u64::from(u32::MAX))
        && is_number(parts.next().unwrap_or(""), u64::MAX)
        && is_number(parts.next().unwrap_or(""), u64::MAX)
        && parts.next().is_none()
}
