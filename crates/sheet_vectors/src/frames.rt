// Headers and frames read.
ghost use Rattle.std.specs.Prelude.{◌≡◌, ◌+◌};
ghost use Rattle.marshalling.specs.declared.format.TheConstants.{VALUES};

use air::WORD_COUNT;
use header::{Fields, Header, Read, Rules};
use marshalling::format::{Record, Reply};
use marshalling::{format, numbers};

// Puts fields 0 to 13, and answers the place after them.
fn put_fields(reply: &mut Reply, f: Fields) -> usize
    ensures { result ≡ VALUES + 14 }
{
    numbers::put_bytes(reply, format::VALUES, &f.values())
}

fn put_accepted(reply: &mut Reply, header: Header, flips: u32) {
    let fields = header.fields;
    let next = put_fields(reply, fields);
    let next = numbers::put_two(reply, next, header.pdu_length);
    let next = numbers::put_two(reply, next, header.crc13);
    let next = numbers::put_byte(reply, next, header.crc5);
    numbers::put_four(reply, next, flips);
}

// Puts the patterns of fourteen words.
fn put_patterns(reply: &mut Reply, patterns: [u16; WORD_COUNT]) {
    numbers::put_twos(reply, format::PATTERNS, &patterns);
}

// Puts what was read of a header alone or of a frame.
pub fn put_read(reply: &mut Reply, read: Read) {
    let patterns = read.patterns;
    put_patterns(reply, patterns);
    let answer = read.answer;
    match answer {
        Ok(accepted) => put_accepted(reply, accepted.header, accepted.flips),
        Err(why) => numbers::put_refusal(reply, why),
    }
}

// The rules at the start of a record.
pub fn rules_of(record: &Record) -> Rules {
    let edition = numbers::edition_of(record);
    Rules {
        edition,
        limit: numbers::four_at(record, format::EDITION) as u32,
    }
}

pub fn header_reply(record: &Record, reply: &mut Reply) {
    let air = numbers::sized(record, format::RULES, format::HEADER_ROOM);
    put_read(reply, header_reader::read_header(rules_of(record), air));
}

pub fn frame_reply(record: &Record, reply: &mut Reply) {
    let mut space = [0u8; format::PAYLOAD_ROOM];
    let payload = numbers::payload_at(record, format::FRAMES_RULE, &mut space);
    let air = numbers::sized(record, format::RULES, format::HEADER_ROOM);
    put_read(reply, frame::read_frame(rules_of(record), air, payload));
}

// Whether the record has call sign bits, and which.
pub fn is_signed(record: &Record) -> bool {
    record[format::RULES] != 0
}

pub fn call_of(record: &Record) -> &[u8] {
    numbers::sized(record, format::RULES + 1, format::CALL_ROOM)
}

// A frame with call sign bits, or without them.
pub fn sign_reply(record: &Record, reply: &mut Reply) {
    let mut space = [0u8; format::PAYLOAD_ROOM];
    let payload = numbers::payload_at(record, format::SIGNS_RULE, &mut space);
    let air = numbers::part(record, format::SIGNED, format::SIGNS_RULE);
    let rules = rules_of(record);
    if is_signed(record) {
        let read = frame::read_frame_signed(rules, call_of(record), air, payload);
        put_read(reply, read);
        return;
    }
    put_read(reply, frame::read_frame(rules, air, payload));
}
