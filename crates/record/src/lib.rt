// Records cut out of bytes: a length of two bytes, 210 header bytes, and that many payload bytes.
#![tactic(auto)]

ghost use Rattle.std.specs.Prelude.{◌≡◌, ◌+◌, ◌≤◌, length};
ghost use Rattle.record.specs.Records.{record_size, cut_of};
ghost use Rattle.record.specs.Parts.{PartsIn};
ghost use Rattle.record.specs.Walks.{over_of};

use air::{AIR_BITS, LONGEST_PAYLOAD};

// The bytes of a record's length.
pub const LENGTH_BYTES: usize = 2;

// A payload stands after the length and the header bytes.
pub const PAYLOAD_START: usize = LENGTH_BYTES + AIR_BITS;

// What stands at the front of some bytes.
#[derive(Clone, Copy)]
pub enum Cut {
    // A whole record with so many payload bytes.
    Record { len: usize },
    // A length over 1,023.
    TooLong,
    // Too few bytes for a record.
    Short,
}

// A whole record: its header bytes, its payload, and what follows it.
#[derive(Clone, Copy)]
pub struct Parts<'a> {
    pub header: &'a [u8],
    pub payload: &'a [u8],
    pub rest: &'a [u8],
}

// How a walk over records ended.
#[derive(Clone, Copy)]
pub enum Ending {
    // It waits for more bytes: those that are left are too few for a record.
    Waits,
    // A length over 1,023 stops it.
    TooLong,
    // A further record stops it where none is taken any more.
    Full,
}

// Whether a walk is over, whatever follows.
pub fn is_over(ending: Ending) -> bool
    ensures { result ≡ over_of ending }
{
    match ending {
        Ending::Waits => false,
        Ending::TooLong => true,
        Ending::Full => true,
    }
}

// What stands at the front of some bytes.
pub fn next_record(rest: &[u8]) -> Cut
    ensures { result ≡ cut_of rest.now }
{
    if rest.len() < LENGTH_BYTES {
        return Cut::Short;
    }
    let len = u16::from_be_bytes([rest[0], rest[1]]) as usize;
    if LONGEST_PAYLOAD < len {
        return Cut::TooLong;
    }
    if rest.len() < PAYLOAD_START + len {
        return Cut::Short;
    }
    Cut::Record { len }
}

// The parts of the record at the front of some bytes, which has `len` payload bytes and is all there.
pub fn split(bytes: &[u8], len: usize) -> Parts
    requires { record_size len ≤ length bytes.now }
    ensures { PartsIn len bytes.now result }
{
    let end = PAYLOAD_START + len;
    Parts {
        header: &bytes[LENGTH_BYTES..PAYLOAD_START],
        payload: &bytes[PAYLOAD_START..end],
        rest: &bytes[end..],
    }
}
