// Headers written.
ghost use Rattle.std.specs.Prelude.{◌+◌, ◌≤◌, length};

use base::Written;
use header::Fields;
use marshalling::format::{Record, Reply};
use marshalling::{format, numbers};

// What the output of the header writer holds beforehand.
const HELD: u8 = 7;

fn fields_of(record: &Record) -> Fields {
    let mut values = [0u8; header::FIELD_COUNT];
    values.copy_from_slice(&record[format::EDITION..format::WRITES_ROOM]);
    Fields::from_values(values)
}

// Has a header written to a part of the reply, and answers what the writer does.
fn write_at(record: &Record, reply: &mut [u8], at: usize, room: usize) -> Written
    requires { at + room ≤ length reply.old }
{
    let mut space = [0u8; format::PAYLOAD_ROOM];
    let payload = numbers::payload_at(record, format::WRITES_RULE, &mut space);
    let out = &mut reply[at..at + room];
    numbers::fill(out, room, HELD, 0);
    header_writer::write_header(numbers::edition_of(record), fields_of(record), payload, out)
}

pub fn write_reply(record: &Record, reply: &mut Reply) {
    let room = numbers::length_at(record, format::WRITES_ROOM, format::AIR_ROOM);
    let next = numbers::put_two(reply, format::VALUES, room as u16);
    let answer = write_at(record, reply, next, room);
    numbers::put_written(reply, answer);
}
