//! The faults by name, their numbers and layers, and the refusal: a fault with its place.
ghost use Rattle.std.specs.Prelude.{◌≡◌};
ghost use Rattle.refusal.specs.Faults.{number, layer, Numbered};

/// What a call may say no for, in the order of the numbers 1 to 21.
#[derive(Clone, Copy, Debug, PartialEq, Eq)]
pub enum Fault {
    Size = 1,
    State,
    Row,
    Domain,
    Range,
    Symbols,
    Busy,
    Worn,
    Foreign,
    Ousted,
    Schemas,
    Steps,
    Early,
    Scratch,
    Short,
    Number,
    Symbol,
    Deep,
    Rest,
    Room,
    Nothing,
}

/// Which part of what was handed over a fault lies in.
#[derive(Clone, Copy, Debug, PartialEq, Eq)]
pub enum Layer {
    Tables,
    Area,
    Bytes,
}

/// A fault and its place. What the place counts depends on the fault: docs/refusals.md has the
/// list.
#[derive(Clone, Copy, Debug, PartialEq, Eq)]
pub struct Refusal {
    pub fault: Fault,
    pub place: usize,
}

impl Fault {
    /// The fault's number, 1 to 21.
    pub fn number(self) -> u32
        ensures value { result ≡ number self }
        ensures distinct { Numbered }
    {
        self as u32
    }

    /// The refusal for the fault at a place.
    pub fn at(self, place: usize) -> Refusal
        ensures { result ≡ record { fault = self; place = place } }
    {
        Refusal { fault: self, place }
    }

    /// The layer that the fault lies in.
    pub fn layer(self) -> Layer
        ensures { result ≡ layer self }
    {
        match self {
            Fault::Size
            | Fault::State
            | Fault::Row
            | Fault::Domain
            | Fault::Range
            | Fault::Symbols
            | Fault::Nothing => Layer::Tables,
            Fault::Busy
            | Fault::Worn
            | Fault::Foreign
            | Fault::Ousted
            | Fault::Schemas
            | Fault::Steps
            | Fault::Early
            | Fault::Scratch => Layer::Area,
            Fault::Short
            | Fault::Number
            | Fault::Symbol
            | Fault::Deep
            | Fault::Rest
            | Fault::Room => Layer::Bytes,
        }
    }
}
