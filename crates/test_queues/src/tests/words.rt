//! The words of a line: the name of a call, and then its arguments by name, for example `delay=5`.
//! A line is read once `forms` has found that all of it can be read.
use sqs_message::{Receipt, Text};
use std::alloc::Global;

// The name of the call.
pub fn call(line: &str) -> &str {
    line.split_whitespace().next().unwrap_or("")
}

// The text after a name and `=`.
pub fn word<'a>(line: &'a str, name: &str) -> Option<&'a str> {
    for word in line.split_whitespace() {
        if let Some((front, back)) = word.split_once('=')
            && front == name
        {
            return Some(back);
        }
    }
    None
}

// The number of some digits; the greatest number if there is none.
fn read(digits: &str) -> u64 {
    digits.parse::<u64>().unwrap_or(u64::MAX)
}

// The number with a name, if it is given.
pub fn number_if(line: &str, name: &str) -> Option<u64> {
    match word(line, name) {
        None => None,
        Some(digits) => Some(read(digits)),
    }
}

// The number with a name; 0 if it is not given.
pub fn number(line: &str, name: &str) -> u64 {
    read(word(line, name).unwrap_or("0"))
}

// The number below 2^32 with a name; 0 if it is not given.
pub fn small(line: &str, name: &str) -> u32 {
    u32::try_from(number(line, name)).unwrap_or(u32::MAX)
}

// The text with a name, if it is given and there is memory for it.
pub fn text_if(alloc: Global, line: &str, name: &str) -> Option<Text> {
    match word(line, name)?.as_bytes().to_vec(alloc) {
        Ok(bytes) => Some(Text::new(bytes)),
        Err(_) => None,
    }
}

// The text with a name; empty if it is not given.
pub fn text(alloc: Global, line: &str, name: &str) -> Text {
    text_if(alloc, line, name).unwrap_or(Text::new(Vec::new(alloc)))
}

// The number with an index among those between the dashes of a text.
fn part(text: &str, place: usize) -> u64 {
    read(text.split('-').nth(place).unwrap_or(""))
}

// The receipt with the name `by`, for example `r-7-0-1`, in which any number may be 0.
pub fn receipt(line: &str) -> Receipt {
    let text = word(line, "by").unwrap_or("");
    Receipt {
        site: u32::try_from(part(text, 1)).unwrap_or(u32::MAX),
        number: part(text, 2),
        count: part(text, 3),
    }
}
