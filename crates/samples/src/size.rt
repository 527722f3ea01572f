//! How many bytes a tree may have, and counting them up to there.
ghost use Rattle.std.specs.Prelude.{◌≡◌, ◌+◌, min};
ghost use Rattle.samples.specs.declared.size.TheConstants.{LONGEST, TOO_LONG};

/// The most bytes of a tree that is written.
pub const LONGEST: u32 = 65_536;

/// What is said of more bytes than that.
pub const TOO_LONG: u32 = LONGEST + 1;

/// So many bytes and so many more, up to TOO_LONG.
pub fn add(bytes: u32, more: u32) -> u32
    ensures sum { result ≡ min (bytes + more) TOO_LONG }
    ensures longest { LONGEST ≡ 65536 }
    ensures too_long { TOO_LONG ≡ 65537 }
{
    bytes.saturating_add(more).min(TOO_LONG)
}
