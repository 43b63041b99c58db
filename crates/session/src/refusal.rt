// Why a line of a script is turned down.
use std::error::Error;
use std::fmt;

// Borrows what it names of the line, and so is small: each line that is a call goes through a `Result` with it, and an `anyhow::Error` has some 300 bytes.
#[derive(Clone, Copy, Debug, PartialEq, Eq)]
pub(crate) enum LineRefused<'a> {
    NoCall(&'a str),
    NoFile(&'a str),
}

impl fmt::Display for LineRefused<'_> {
    fn fmt<W: fmt::Write>(&self, f: &mut fmt::Formatter<W>) -> fmt::Result {
        match *self {
            LineRefused::NoCall(line) => write!(f, "this line is no call: {line}"),
            LineRefused::NoFile(name) => write!(f, "this file cannot be read: {name}"),
        }
    }
}

impl Error for LineRefused<'_> {}
