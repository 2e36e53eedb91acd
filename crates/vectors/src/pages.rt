// Power pages, read and written, and shown values.
ghost use Rattle.std.specs.Prelude.{◌≡◌, ◌+◌, ◌≤◌, length};
ghost use Rattle.marshalling.specs.declared.format.TheConstants.{REPLY_BYTES, VALUES};

use base::Written;
use marshalling::format::{Record, Reply};
use marshalling::{format, numbers};
use page::{PageFields, PageHeader};
use scaling::Scaling;

// What the output of the page writer holds beforehand.
const HELD: u8 = 0xA7;

// Puts the payload header but for the time tag, and answers the place after it.
fn put_fields(reply: &mut Reply, f: PageFields) -> usize
    ensures { result ≡ VALUES + 17 }
{
    let next = numbers::put_four(reply, format::VALUES, f.fsync);
    let next = numbers::put_two(reply, next, f.crc14);
    let next = numbers::put_byte(reply, next, f.fcid_major);
    let next = numbers::put_two(reply, next, f.fcid_sub);
    let flags = [
        f.urgent,
        f.future,
        f.crc,
        f.multi_frame,
        f.time_tagged_setting,
        f.time_tagged,
    ];
    let next = numbers::put_bytes(reply, next, &flags);
    numbers::put_two(reply, next, f.frame_length)
}

// Puts the rows, and answers the place after them.
fn put_rows(reply: &mut Reply, at: usize, rows: [i16; 17]) -> usize
    requires { at + 34 ≤ REPLY_BYTES }
    ensures { result ≡ at + 34 }
{
    let mut next = at;
    for k in 0..17 {
        next = numbers::put_two(reply, next, rows[k].cast_unsigned());
    }
    next
}

fn put_page(reply: &mut Reply, header: PageHeader, rows: [i16; 17]) {
    let fields = header.fields;
    let next = put_fields(reply, fields);
    let next = numbers::put_four(reply, next, header.time_tag);
    let next = put_rows(reply, next, rows);
    let next = numbers::put_eight(reply, next, header.later_start as u64);
    numbers::put_eight(reply, next, header.later_count as u64);
}

pub fn page_reply(record: &Record, reply: &mut Reply) {
    let answer = page::read_page(numbers::sized(record, 0, format::PAGE_ROOM));
    let rows = answer.rows;
    let verdict = answer.verdict;
    match verdict {
        Ok(header) => put_page(reply, header, rows),
        Err(why) => numbers::put_refusal(reply, why),
    }
}

// Sixteen bits in two's complement.
fn signed_at(bytes: &[u8], at: usize) -> i16
    requires { at + 2 ≤ length bytes.now }
{
    i16::from_be_bytes([bytes[at], bytes[at + 1]])
}

fn rows_of(record: &Record) -> [i16; 17] {
    let mut rows = [0i16; 17];
    for r in 0..17 {
        rows[r] = signed_at(record, 2 * r);
    }
    rows
}

// Has a page written to a part of the reply, and answers what the writer does.
fn write_at(record: &Record, reply: &mut [u8], at: usize, room: usize) -> Written
    requires { at + room ≤ length reply.old }
{
    let out = &mut reply[at..at + room];
    numbers::fill(out, room, HELD, 0);
    page::write_page(rows_of(record), out)
}

// (Alike the reply to a header written but for places of the format: one function would take as many arguments as it has lines.)
pub fn rows_reply(record: &Record, reply: &mut Reply) {
    let room = numbers::length_at(record, format::ROWS_ROOM, format::USER_ROOM);
    let next = numbers::put_two(reply, format::VALUES, room as u16);
    let answer = write_at(record, reply, next, room);
    numbers::put_written(reply, answer);
}

// The bits of an infinity. Without a sign, those of every NaN are above them, and of no other number.
const INFINITE: u64 = 0x7FF0_0000_0000_0000;

// The f64 of its bits, of which every NaN's make one NaN: `from_bits` is not defined at them.
fn float_of(bits: u64) -> f64 {
    if INFINITE < bits % 0x8000_0000_0000_0000 {
        return f64::NAN;
    }
    f64::from_bits(bits)
}

// The bits of a value, and all ones for every NaN: `to_bits` is not defined at one, and they are the bits of nothing else.
fn bits_of(value: f64) -> u64 {
    if value.is_nan() {
        return u64::MAX;
    }
    value.to_bits()
}

pub fn shown_reply(record: &Record, reply: &mut Reply) {
    let scaling = Scaling {
        c0: float_of(numbers::eight_at(record, format::C0)),
        c1: float_of(numbers::eight_at(record, format::C1)),
        c2: float_of(numbers::eight_at(record, format::C2)),
        spread: numbers::two_at(record, format::SPREAD) as u32,
    };
    match scaling::shown(scaling, signed_at(record, format::RAW)) {
        Ok(value) => {
            numbers::put_eight(reply, format::VALUES, bits_of(value));
        }
        Err(why) => numbers::put_refusal(reply, why),
    }
}
