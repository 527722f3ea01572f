//! A schema as the caller lends it, and the test of its counts and lengths.
ghost use Rattle.std.specs.Prelude.{◌≡◌, false, not};
ghost use Rattle.schema.specs.Tables.{tables};
ghost use Rattle.schema.specs.Faults.{outside, counts_wrong, lengths_wrong};

/// The largest counts of a schema.
pub const SYMBOLS: usize = 32;

pub const STATES: usize = 64;

pub const ROWS: usize = 1024;

pub const DOMAINS: usize = 64;

/// How many bytes the state table has for a state.
pub const STATE_BYTES: usize = 4;

/// Counts, byte tables and domains. docs/schemas.md has the layout, byte by byte.
#[derive_where(Clone, Copy)]
pub struct Schema<'a, D> {
    pub symbols: usize,
    pub states: usize,
    pub rows: usize,
    pub transitions: &'a [u8],
    pub state_table: &'a [u8],
    pub row_table: &'a [u8],
    pub domains: &'a [D],
}

/// Whether a count is from 1 to its limit.
fn is_within(count: usize, most: usize) -> bool
    ensures { result ≡ not (outside 1 most count) }
{
    (1..=most).contains(&count)
}

impl<D> Schema<'_, D> {
    /// Whether each count is inside its limits.
    pub(crate) fn counts_fit(&self) -> bool
        ensures { result ≡ not (counts_wrong (tables self.now)) }
    {
        is_within(self.symbols, SYMBOLS)
            && is_within(self.states, STATES)
            && is_within(self.rows, ROWS)
            && is_within(self.domains.len(), DOMAINS)
    }

    /// Whether each table is as long as the counts make it.
    pub(crate) fn lengths_fit(&self) -> bool
        requires { counts_wrong (tables self.now) ≡ false }
        ensures { result ≡ not (lengths_wrong (tables self.now)) }
    {
        self.transitions.len() == self.states * self.symbols
            && self.state_table.len() == STATE_BYTES * self.states
            && self.row_table.len() == self.rows * (self.symbols + 1)
    }
}
