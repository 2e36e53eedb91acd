// Words, checksums and call signs.
ghost use Rattle.std.specs.Prelude.{◌≡◌, ◌+◌, ◌<◌, ◌≤◌, ◌^◌};
ghost use Rattle.marshalling.specs.declared.format.TheConstants.{RECORD_BYTES, REPAIRED, REPLY_BYTES};

use crc::HeaderBits;
use marshalling::format::{Record, Reply};
use marshalling::{format, numbers};
use word::Repaired;

// Puts what repair makes of a number, and leaves zeros where it is beyond repair.
fn put_repaired(reply: &mut Reply, at: usize, repaired: Option<Repaired>) -> usize
    requires { at + REPAIRED ≤ REPLY_BYTES }
    ensures { result ≡ at + REPAIRED }
{
    match repaired {
        Some(Repaired { word, flips }) => {
            let next = numbers::put_byte(reply, at, 1);
            let next = numbers::put_two(reply, next, word);
            numbers::put_two(reply, next, flips)
        }
        None => at + format::REPAIRED,
    }
}

// The number, and what the table makes of it and what the search makes of it.
pub fn word_reply(record: &Record, reply: &mut Reply) {
    let number = numbers::two_at(record, 0) as u16;
    let next = numbers::put_two(reply, 0, number);
    let next = put_repaired(reply, next, word::repair(number));
    put_repaired(reply, next, word::search(number));
}

// Of the data the lowest five bits count; no record of the independent program has more.
pub fn encode_reply(record: &Record, reply: &mut Reply) {
    let data = record[0] % 32;
    let next = numbers::put_byte(reply, 0, data);
    numbers::put_two(reply, next, word::encode(data as u16));
}

pub fn crc13_reply(record: &Record, reply: &mut Reply) {
    let payload = numbers::sized(record, 0, format::PAYLOAD_ROOM);
    let next = numbers::put_two(reply, 0, payload.len() as u16);
    numbers::put_two(reply, next, crc::crc13(payload));
}

// Five bits, the first in the highest place.
fn five_at(record: &Record, at: usize) -> u64
    requires { at + 5 ≤ RECORD_BYTES }
    ensures { result < 2 ^ 5 }
{
    numbers::wide(record[at]) % 2 * 16
        + numbers::wide(record[at + 1]) % 2 * 8
        + numbers::wide(record[at + 2]) % 2 * 4
        + numbers::wide(record[at + 3]) % 2 * 2
        + numbers::wide(record[at + 4]) % 2
}

// Fifteen bits.
fn fifteen_at(record: &Record, at: usize) -> u64
    requires { at + 15 ≤ RECORD_BYTES }
    ensures { result < 2 ^ 15 }
{
    five_at(record, at) * 0x400 + five_at(record, at + 5) * 0x20 + five_at(record, at + 10)
}

// Header bits 0 to 29, and 30 to 64 with five zeros in the place of CRC5.
pub fn crc5_reply(record: &Record, reply: &mut Reply) {
    let at = format::EDITION;
    let hi = fifteen_at(record, at) * 0x8000 + fifteen_at(record, at + 15);
    let lo = fifteen_at(record, at + 30) * 0x200_0000
        + fifteen_at(record, at + 45) * 0x400
        + five_at(record, at + 60) * 0x20;
    reply[0] = crc::crc5(numbers::edition_of(record), HeaderBits { hi, lo });
}

// The bits of a satellite's call sign.
pub fn call_reply(record: &Record, reply: &mut Reply) {
    let bits = sign::call_sign(record[0]);
    numbers::put_bytes(reply, 0, &bits);
}
