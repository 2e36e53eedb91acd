// Numbers out of a record and into a reply: unsigned, high byte first.
ghost use Rattle.std.specs.Prelude.{◌≡◌, ◌+◌, ◌-◌, ◌*◌, ◌^◌, ◌<◌, ◌≤◌, min, length};
ghost use Rattle.marshalling.specs.Numbers.{two_at, four_at, eight_at};
ghost use Rattle.marshalling.specs.declared.format.TheConstants.{LENGTH, PAYLOAD_ROOM, REPLY_BYTES};

use crate::format;
use crate::format::{Record, Reply};
use base::{Edition, Refusal, Written};

// A cast of an element asks for its bound; a cast of a parameter does not.
pub fn wide(byte: u8) -> u64
    ensures value { result ≡ byte }
    ensures upper_bound { result < 2 ^ 8 }
{
    byte as u64
}

pub fn two_at(bytes: &[u8], at: usize) -> u64
    requires { at + 2 ≤ length bytes.now }
    ensures value { result ≡ two_at bytes.now at }
    ensures upper_bound { result < 2 ^ 16 }
{
    u16::from_be_bytes([bytes[at], bytes[at + 1]]) as u64
}

pub fn four_at(bytes: &[u8], at: usize) -> u64
    requires { at + 4 ≤ length bytes.now }
    ensures value { result ≡ four_at bytes.now at }
    ensures upper_bound { result < 2 ^ 32 }
{
    u32::from_be_bytes([bytes[at], bytes[at + 1], bytes[at + 2], bytes[at + 3]]) as u64
}

pub fn eight_at(bytes: &[u8], at: usize) -> u64
    requires { at + 8 ≤ length bytes.now }
    ensures { result ≡ eight_at bytes.now at }
{
    four_at(bytes, at) * 0x1_0000_0000 + four_at(bytes, at + 4)
}

// The edition at the start of a record.
pub fn edition_of(record: &Record) -> Edition {
    if record[0] == 0 {
        return Edition::Flown;
    }
    Edition::Corrected
}

// A length or a room. One past `most` counts as `most`; no record of the independent program has one.
pub fn length_at(bytes: &[u8], at: usize, most: usize) -> usize
    requires { at + 2 ≤ length bytes.now }
    ensures value { result ≡ min most (two_at bytes.now at) }
    ensures upper_bound { result ≤ most }
{
    most.min(two_at(bytes, at) as usize)
}

// The bytes from a place up to another.
pub fn part(bytes: &[u8], from: usize, to: usize) -> &[u8]
    requires { (from ≤ to) × (to ≤ length bytes.now) }
    ensures { length result.now ≡ to - from }
{
    &bytes[from..to]
}

// The bytes behind their length, which stands at a place, and of which there are at most so many.
pub fn sized(bytes: &[u8], at: usize, most: usize) -> &[u8]
    requires { at + LENGTH + most ≤ length bytes.now }
    ensures { length result.now ≤ most }
{
    let start = at + format::LENGTH;
    part(bytes, start, start + length_at(bytes, at, most))
}

// Fills the front of a slice with a start and then each byte a step above the last, modulo 256.
pub fn fill(bytes: &mut [u8], n: usize, start: u8, step: u8)
    requires { n ≤ length bytes.old }
{
    let mut byte = start;
    for place in &mut bytes[..n] {
        *place = byte;
        byte = byte.wrapping_add(step);
    }
}

// The payload of a rule, made at the front of `space`.
pub fn payload_at<'a>(bytes: &[u8], at: usize, space: &'a mut [u8]) -> &'a [u8]
    requires at_in_bounds { at + 4 ≤ length bytes.now }
    requires space_in_bounds { PAYLOAD_ROOM ≤ length space.old }
{
    let size = length_at(bytes, at, format::PAYLOAD_ROOM);
    fill(space, size, bytes[at + 2], bytes[at + 3]);
    part(&space[..], 0, size)
}

// Puts a number, and answers the place after it. So do all that put one.
pub fn put_byte(reply: &mut Reply, at: usize, n: u8) -> usize
    requires { at < REPLY_BYTES }
    ensures { result ≡ at + 1 }
{
    reply[at] = n;
    at + 1
}

// Puts bytes one after the other.
pub fn put_bytes(reply: &mut Reply, at: usize, bytes: &[u8]) -> usize
    requires { at + length bytes.now ≤ REPLY_BYTES }
    ensures { result ≡ at + length bytes.now }
{
    let end = at + bytes.len();
    reply[at..end].copy_from_slice(bytes);
    end
}

// (Three widths, one line each: a trait over the widths would be longer.)
pub fn put_two(reply: &mut Reply, at: usize, n: u16) -> usize
    requires { at + 2 ≤ REPLY_BYTES }
    ensures { result ≡ at + 2 }
{
    put_bytes(reply, at, &n.to_be_bytes())
}

// Puts numbers of two bytes one after the other.
pub fn put_twos(reply: &mut Reply, at: usize, numbers: &[u16]) -> usize
    requires { at + 2 * length numbers.now ≤ REPLY_BYTES }
    ensures { result ≡ at + 2 * length numbers.now }
{
    let mut next = at;
    for &n in numbers {
        next = put_two(reply, next, n);
    }
    next
}

pub fn put_four(reply: &mut Reply, at: usize, n: u32) -> usize
    requires { at + 4 ≤ REPLY_BYTES }
    ensures { result ≡ at + 4 }
{
    put_bytes(reply, at, &n.to_be_bytes())
}

pub fn put_eight(reply: &mut Reply, at: usize, n: u64) -> usize
    requires { at + 8 ≤ REPLY_BYTES }
    ensures { result ≡ at + 8 }
{
    put_bytes(reply, at, &n.to_be_bytes())
}

// Puts a refusal: number and place.
pub fn put_refusal(reply: &mut Reply, why: Refusal) {
    reply[format::NUMBER] = why.number;
    put_eight(reply, format::PLACE, why.place as u64);
}

// Puts the answer of a writer.
pub fn put_written(reply: &mut Reply, answer: Written) {
    if let Err(why) = answer {
        put_refusal(reply, why);
    }
}
