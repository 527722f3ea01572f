//! What the calls on an area answer, as it is printed.
use api::Refusal;
use notation::lists::Bytes;
use std::fmt;

/// An answer, or the refusal that is given in its place.
#[derive(Drop)]
pub struct Answer<T>(pub Result<T, Refusal>);

impl<T: fmt::Display> fmt::Display for Answer<T> {
    fn fmt<W: fmt::Write>(&self, f: &mut fmt::Formatter<W>) -> fmt::Result {
        match &self.0 {
            Ok(answer) => write!(f, "{answer}"),
            Err(refusal) => write!(f, "refused {refusal}"),
        }
    }
}

/// What a step answers: how many pairs it examined, and 1 where the verdict stands, else 0.
#[derive(Clone, Copy, Debug, PartialEq, Eq)]
pub struct Stepped {
    pub examined: u32,
    pub mark: u32,
}

impl fmt::Display for Stepped {
    fn fmt<W: fmt::Write>(&self, f: &mut fmt::Formatter<W>) -> fmt::Result {
        write!(f, "({}, {})", self.examined, self.mark)
    }
}

/// The bytes that were written to an output.
#[derive(Drop)]
pub struct Written(Vec<u8>);

impl Written {
    /// So many bytes at an output's front.
    pub fn front(mut output: Vec<u8>, length: usize) -> Written {
        output.truncate(length);
        Written(output)
    }

    /// The bytes.
    pub fn as_slice(&self) -> &[u8] {
        self.0.as_slice()
    }
}

impl fmt::Display for Written {
    fn fmt<W: fmt::Write>(&self, f: &mut fmt::Formatter<W>) -> fmt::Result {
        write!(f, "{}", Bytes(self.as_slice()))
    }
}
