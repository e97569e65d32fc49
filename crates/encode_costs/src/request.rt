//! What the caller asks for.

use std::env::Args;
use std::str::FromStr;
use std::{env, io};

/// The words after the program's name.
#[derive(Drop)]
pub struct Request {
    pub bits: u32,
    pub a: u32,
    pub b: u32,
    pub cost: u8,
    pub file: Option<String>,
}

// The number that a word spells; none where there is no word, or where it spells no number.
fn parsed<T: FromStr>(word: Option<String>) -> Option<T>
where
    T::Err: Drop,
{
    word?.as_str().parse().ok()
}

// The request that these words make; none where a number is missing, or where a word spells no number.
fn read_words(mut words: Args) -> Option<Request> {
    Some(Request {
        bits: parsed(words.next())?,
        a: parsed(words.next())?,
        b: parsed(words.next())?,
        cost: parsed(words.next())?,
        file: words.next(),
    })
}

/// What the caller asks for; none where a number is missing, or where a word spells no number.
pub(crate) fn asked(rt: &HostRuntime) -> io::Result<Option<Request>> {
    let mut words = env::args(rt)?;
    let _name = words.next();
    Ok(read_words(words))
}
