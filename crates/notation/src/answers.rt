//! What calls answer, as it is printed: `yes`, `claim (7, 1)`, `included, pairs 3`.
use api::{Kind, Numbers, Verdict};
use std::fmt;

/// Whether something holds: `yes` or `no`.
#[derive(Clone, Copy, Debug, PartialEq, Eq)]
pub struct Truth(pub bool);

impl fmt::Display for Truth {
    fn fmt<W: fmt::Write>(&self, f: &mut fmt::Formatter<W>) -> fmt::Result {
        let word = if self.0 { "yes" } else { "no" };
        write!(f, "{word}")
    }
}

/// A claim, told by its two numbers: the area's and the serial.
#[derive(Clone, Copy, Debug, PartialEq, Eq)]
pub struct ClaimNumbers(pub Numbers);

impl fmt::Display for ClaimNumbers {
    fn fmt<W: fmt::Write>(&self, f: &mut fmt::Formatter<W>) -> fmt::Result {
        let Numbers { area, serial } = self.0;
        write!(f, "claim ({area}, {serial})")
    }
}

/// What a comparison came to, and how many pairs it examined: `included, pairs 3` or `apart,
/// content, pairs 1`.
#[derive(Clone, Copy, Debug, PartialEq, Eq)]
pub struct Finding {
    pub verdict: Verdict,
    pub examined: usize,
}

impl fmt::Display for Finding {
    fn fmt<W: fmt::Write>(&self, f: &mut fmt::Formatter<W>) -> fmt::Result {
        let verdict = match self.verdict {
            Verdict::Included => "included",
            Verdict::Apart(Kind::Value) => "apart, value",
            Verdict::Apart(Kind::Content) => "apart, content",
        };
        write!(f, "{verdict}, pairs {}", self.examined)
    }
}
