//! The one door for callers: the public calls and types, by name, and nothing else.
#![tactic(auto)]

pub use checking::check;
pub use checking::cursor::Cursor;
pub use codec::item::Level;
pub use compare::area::Area;
pub use compare::begin::{oust, take};
pub use compare::claim::{Apart, ApartClaim, Claim, Comparing, ConcludedApart, Lease, Numbers};
pub use compare::conclude::{Concluded, conclude, give_up};
pub use compare::phase::{Kind, Verdict};
pub use compare::step::{MOST_STEPS, step};
pub use compare::trail::trail;
pub use document::document::{LEVELS, document};
pub use domain::coverage::{Coverage, Range};
pub use domain::domain::Domain;
pub use domain::joint::{Joint, MIDDLE};
pub use domain::keywords::Keywords;
pub use history::open::open;
pub use refusal::fault::{Fault, Layer, Refusal};
pub use refusal::words::word;
pub use samples::node::NodeKey;
pub use samples::size::LONGEST;
pub use schema::live::live;
pub use schema::tables::Schema;
pub use search::pairs::{ROW_PAIRS, RowPair};
pub use trim::trim;
