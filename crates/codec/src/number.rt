//! Numbers of 32 bits as bytes: groups of seven bits, the lowest first, the top bit set on all but
//! the last.
ghost use Rattle.std.specs.Prelude.{◌≡◌, length};
ghost use Rattle.codec.specs.Numbers.{NumberExamples, number_bytes, is_wrong_group, Reads, Writes};

use refusal::fault::{Fault, Refusal};

/// The index of the last group of a number of 32 bits that has as many as it can.
const LAST_GROUP: usize = 4;

/// The largest last group of a number of five: four bits are left for it.
const LARGEST_FIFTH: u8 = 15;

/// The number at a place of the input, and the place after it; or `short` or `number`.
pub fn read_number(input: &[u8], place: usize) -> Result<(u32, usize), Refusal>
    ensures { Reads input.now place result }
{
    let rest = input.get(place..).unwrap_or(&[]);
    let mut value: u32 = 0;
    for (group, byte) in rest.iter().enumerate() {
        if is_wrong(group, *byte) {
            return Err(Fault::Number.at(place));
        }
        value += u32::from(*byte % 128) << (7 * group);
        if *byte < 128 {
            return Ok((value, place + group + 1));
        }
    }
    Err(Fault::Short.at(input.len()))
}

/// Whether a byte can't be the group at an index: a fifth above 15, or a 0 after others.
fn is_wrong(group: usize, byte: u8) -> bool
    ensures { result ≡ is_wrong_group group byte }
{
    (group > 0 && byte == 0) || (group >= LAST_GROUP && byte > LARGEST_FIFTH)
}

/// How many bytes a number has.
#[tactic(auto, using(crate::proofs::Spelling::examples))]
pub fn number_length(value: u32) -> usize
    ensures value { result ≡ length (number_bytes value) }
    ensures examples { NumberExamples }
{
    match value {
        0..=0x7f => 1,
        0x80..=0x3fff => 2,
        0x4000..=0x1f_ffff => 3,
        0x20_0000..=0xfff_ffff => 4,
        _ => 5,
    }
}

/// Writes a number at a place of the output, and gives the place after it; none, and nothing is
/// written, where it has no room there.
pub fn write_number(output: &mut [u8], place: usize, value: u32) -> Option<usize>
    ensures { Writes output.old place (number_bytes value) result output.new }
{
    let length = number_length(value);
    if output.len() < length || output.len() - length < place {
        return None;
    }
    spell(&mut output[place..place + length], value);
    Some(place + length)
}

/// Writes the bytes of a number into as many slots.
fn spell(slots: &mut [u8], value: u32)
    requires { length slots.old ≡ length (number_bytes value) }
    ensures { slots.new ≡ number_bytes value }
{
    let mut rest = value;
    for slot in slots.iter_mut() {
        // the top bit says that another group follows
        let follows: u8 = if rest < 128 { 0 } else { 128 };
        *slot = (rest % 128) as u8 + follows;
        rest /= 128;
    }
}
