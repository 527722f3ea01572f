//! What a call on an area comes to, and how it is printed.
use api::{Numbers, Refusal};
use notation::answers::{ClaimNumbers, Finding, Truth};
use notation::lists::Bytes;
use std::fmt;

/// What a call on an area came to.
#[derive(Debug, Drop, PartialEq, Eq)]
pub enum Reply {
    /// An area was opened.
    Opened,
    /// The claim of the comparison that begins.
    Begun(Numbers),
    /// How many pairs a step examined, and 1 where the verdict stands, else 0.
    Stepped(u32, u32),
    /// What a comparison came to.
    Included(Finding),
    /// The same of one that came out apart, with its claim.
    Apart(Finding, Numbers),
    /// The length of a trail and the whole output, with the claim that came back.
    Trailed(usize, Vec<u8>, Numbers),
    /// What giving a claim up answered: 1 from the holder, else 0.
    GivenUp(u32),
    /// Why a claim came back.
    Returned(Refusal, Numbers),
    /// Why a claim came back without a trail, and whether the output is as it was.
    Untrailed {
        refusal: Refusal,
        claim: Numbers,
        as_found: bool,
    },
    /// The length of a document, whether each of the two schemas accepts it, and the whole output.
    Documented {
        length: usize,
        first: Result<bool, Refusal>,
        second: Result<bool, Refusal>,
        output: Vec<u8>,
    },
    /// Why there is no document, and whether the output is as it was.
    Undocumented {
        refusal: Refusal,
        as_found: bool,
    },
}

/// The most bytes of an output that are printed one by one.
const SHOWN: usize = 512;

/// An output: its bytes, or of a long one how many there are, and their hash.
#[derive(Clone, Copy)]
struct Output<'a>(&'a [u8]);

impl<'a> fmt::Display for Output<'a> {
    fn fmt<W: fmt::Write>(&self, f: &mut fmt::Formatter<W>) -> fmt::Result {
        if self.0.len() <= SHOWN {
            return write!(f, "{}", Bytes(self.0));
        }
        write!(f, "{} bytes, hash {}", self.0.len(), hash(self.0))
    }
}

/// The hash FNV-1a of bytes, in which every byte and its place count.
fn hash(bytes: &[u8]) -> u32 {
    bytes.iter().fold(2_166_136_261u32, |hash, byte| {
        (hash ^ u32::from(*byte)).wrapping_mul(16_777_619)
    })
}

/// What a schema says of a document.
#[derive(Clone, Copy)]
struct Checked<'a>(&'a Result<bool, Refusal>);

impl<'a> fmt::Display for Checked<'a> {
    fn fmt<W: fmt::Write>(&self, f: &mut fmt::Formatter<W>) -> fmt::Result {
        match self.0 {
            Ok(accepted) => write!(f, "{}", Truth(*accepted)),
            Err(refusal) => write!(f, "refused {refusal}"),
        }
    }
}

/// What a refusal left of an output.
pub fn left(as_found: bool) -> &'static str {
    if as_found { "as found" } else { "changed" }
}

impl fmt::Display for Reply {
    fn fmt<W: fmt::Write>(&self, f: &mut fmt::Formatter<W>) -> fmt::Result {
        match self {
            Reply::Opened => write!(f, "opened"),
            Reply::Begun(claim) => write!(f, "{}", ClaimNumbers(*claim)),
            Reply::Stepped(examined, mark) => write!(f, "({examined}, {mark})"),
            Reply::Included(finding) => write!(f, "{finding}"),
            Reply::Apart(finding, claim) => write!(f, "{finding}; {}", ClaimNumbers(*claim)),
            Reply::Trailed(length, output, claim) => {
                let output = Bytes(output.as_slice());
                write!(f, "length {length}; {output}; {}", ClaimNumbers(*claim))
            }
            Reply::GivenUp(answer) => write!(f, "{answer}"),
            Reply::Returned(refusal, claim) => write!(
                f,
                "refused {refusal}; {}",
                ClaimNumbers(*claim)
            ),
            Reply::Untrailed {
                refusal,
                claim,
                as_found,
            } => {
                let (claim, left) = (ClaimNumbers(*claim), left(*as_found));
                write!(f, "refused {refusal}; {claim}; output {left}")
            }
            Reply::Documented {
                length,
                first,
                second,
                output,
            } => {
                let output = Output(output.as_slice());
                let (first, second) = (Checked(first), Checked(second));
                write!(
                    f,
                    "length {length}; {output}; first {first}, second {second}"
                )
            }
            Reply::Undocumented { refusal, as_found } => {
                write!(f, "refused {refusal}; output {}", left(*as_found))
            }
        }
    }
}
