// What the library answers to the stored vectors about BEESAT-1, as `vectors` does to the others.
#![tactic(auto)]

ghost use Rattle.std.specs.Prelude.{◌+◌, ◌≤◌, ◌<◌, length};
ghost use Rattle.marshalling.specs.declared.format.TheConstants.{FRAME_AFTER};

use base::Written;
use beesat::{Contents, Header, STATES, VALUES};
use marshalling::format::{Kind, Record, Reply};
use marshalling::{format, numbers};

// The two cases of what was read: bytes of the replies' format.
const TELEMETRY: u8 = 1;

const IDLE: u8 = 2;

fn put_header(reply: &mut Reply, case: u8, header: Header) {
    reply[format::VALUES] = case;
    let next = numbers::put_byte(reply, format::FREE, header.vcid);
    let next = numbers::put_byte(reply, next, header.mcfc);
    let next = numbers::put_byte(reply, next, header.vcfc);
    let next = numbers::put_two(reply, next, header.apid);
    let next = numbers::put_byte(reply, next, header.flag);
    numbers::put_two(reply, next, header.psc);
}

// Four state bits as one number.
fn joined(a: u8, b: u8, c: u8, d: u8) -> u8 {
    a % 2 * 8 + b % 2 * 4 + c % 2 * 2 + d % 2
}

fn put_states(reply: &mut Reply, states: [u8; STATES]) {
    for i in 0..VALUES {
        let at = 4 * i;
        reply[format::STATES + i] = joined(
            states[at],
            states[at + 1],
            states[at + 2],
            states[at + 3],
        );
    }
}

fn put_data(reply: &mut Reply, values: [u16; VALUES], states: [u8; STATES]) {
    numbers::put_twos(reply, format::DATA, &values);
    put_states(reply, states);
}

// A frame read.
fn read_reply(record: &Record, reply: &mut Reply) {
    let read = beesat::read_frame(numbers::sized(record, 0, format::FRAME_ROOM));
    let values = read.values;
    let states = read.states;
    put_data(reply, values, states);
    match read.answer {
        Ok(Contents::Telemetry(header)) => put_header(reply, TELEMETRY, header),
        Ok(Contents::Idle(header)) => put_header(reply, IDLE, header),
        Err(why) => numbers::put_refusal(reply, why),
    }
}

// A field of the frame in a reply written.
fn write_in(record: &Record, reply: &mut [u8], size: usize) -> Written
    requires { FRAME_AFTER + size ≤ length reply.old }
{
    let frame = &mut reply[format::FRAME_AFTER..format::FRAME_AFTER + size];
    let field = numbers::four_at(record, format::FIELD) as u32;
    beesat::write_field(frame, field, numbers::four_at(record, format::VALUE) as u32)
}

// And the room afterwards.
fn write_reply(record: &Record, reply: &mut Reply) {
    let size = numbers::length_at(record, format::FIELDS_FRAME, format::FRAME_ROOM);
    let next = numbers::put_two(reply, format::VALUES, size as u16);
    let start = format::FIELDS_FRAME + format::LENGTH;
    numbers::put_bytes(
        reply,
        next,
        numbers::part(record, start, start + format::FRAME_ROOM),
    );
    let answer = write_in(record, reply, size);
    numbers::put_written(reply, answer);
}

// Answers a record by its kind, and says whether that is one of this program's.
fn answer(kind: Kind, record: &Record, reply: &mut Reply) -> bool {
    match kind {
        Kind::Beesat => read_reply(record, reply),
        Kind::Fields => write_reply(record, reply),
        _ => {
            return false;
        }
    }
    true
}

fn main(rt: HostRuntime) {
    marshalling::answer_all(rt, answer);
}
