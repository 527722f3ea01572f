//! An output on which numbers are written one behind the other.
ghost use Rattle.std.specs.Prelude.{◌++◌};
ghost use Rattle.codec.specs.Numbers.{number_bytes};
ghost use Rattle.samples.specs.Outputs.{Appends};

use codec::number::write_number;

/// A lent output, written from its front up to a place.
// No model: whoever lends the bytes has to learn what stands in them afterwards, which a view would
// hide.
#[derive(Drop)]
pub struct Output<'a> {
    pub bytes: &'a mut [u8],
    pub place: usize,
}

impl Output<'_> {
    /// Writes a number; none where it has no room.
    pub fn number(&mut self, value: u32) -> Option<()>
        ensures { Appends (number_bytes value) self.old result self.new }
    {
        self.place = write_number(self.bytes, self.place, value)?;
        Some(())
    }

    /// Writes what a node begins with, its value and its child count; none where they have no room.
    pub fn head(&mut self, value: u32, count: u32) -> Option<()>
        ensures { Appends (number_bytes value ++ number_bytes count) self.old result self.new }
    {
        self.number(value)?;
        self.number(count)
    }
}
