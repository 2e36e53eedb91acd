// Writes one record: started with an edition and fourteen numbers, those of fields 0 to 13, it takes standard input as the payload and writes the record to
// standard output, or tells the refusal on standard error. It moves bytes and does nothing else: the record is that of `record_writer`.
#![tactic(auto)]

ghost use Rattle.std.specs.Prelude.{◌≡◌, ◌<◌, length};
ghost use Rattle.write.specs.Bytes.{capped_of};

use base::{Edition, Refusal};
use header::{FIELD_COUNT, Fields};
use options::number;
use record::PAYLOAD_START;
use record_writer::{LONGEST_RECORD, write_record};
use std::io::Write;
use streams::{Next, count_on, fill, write};

// The word before the numbers is the edition.
const FIRST_NUMBER: usize = 2;

// More than any field may be, and as much as a byte holds.
const MORE_THAN_ANY: u32 = 255;

// More than any payload.
const BUFFER_BYTES: usize = 4096;

// A number as a byte. What is above 255 counts as 255, and is refused as it would be itself.
fn capped(n: u32) -> u8
    ensures { result ≡ capped_of n }
{
    if MORE_THAN_ANY < n {
        return MORE_THAN_ANY as u8;
    }
    n as u8
}

// What the words say of the fields; none where one of them is no number.
fn read_words(rt: HostRuntime) -> Option<[u8; FIELD_COUNT]> {
    let mut values = [0u8; FIELD_COUNT];
    for k in 0..FIELD_COUNT {
        values[k] = capped(number(rt, FIRST_NUMBER + k)?);
    }
    Some(values)
}

// Tells a refusal. Where that fails, nobody is left to be told.
fn tell(rt: HostRuntime, why: Refusal) {
    match writeln!(rt.stderr(), "refused {} {}", why.number, why.place) {
        Ok(()) => {}
        Err(_) => {}
    }
}

// Writes the record of a payload.
fn write_payload(rt: HostRuntime, edition: Edition, fields: Fields, payload: &[u8]) {
    let mut out = [0u8; LONGEST_RECORD];
    let answer = write_record(edition, fields, payload, &mut out);
    match answer {
        Ok(()) => {
            let end = PAYLOAD_START + payload.len();
            write(rt, &out[..end]);
        }
        Err(why) => {
            tell(rt, why);
        }
    }
}

// Tells why a payload of this size is refused, of which the part is over 1,023 already.
fn refuse(rt: HostRuntime, edition: Edition, fields: Fields, part: &[u8], size: usize) {
    let mut out = [0u8; LONGEST_RECORD];
    if let Err(why) = write_record(edition, fields, part, &mut out) {
        tell(rt, record_writer::of_whole(why, size));
    }
}

// The payload is longer than the buffer, which is longer than any payload may be.
fn refuse_long(rt: HostRuntime, edition: Edition, fields: Fields, buf: &mut [u8])
    requires { 0 < length buf.old }
{
    let counted = count_on(rt, buf);
    let next = counted.next;
    match next {
        Next::More => {}
        Next::Done => {
            refuse(rt, edition, fields, buf, counted.size);
        }
        Next::Failed => {}
    }
}

// Writes the record whose payload the whole input is.
fn write_input(rt: HostRuntime, edition: Edition, fields: Fields) {
    let mut buf = [0u8; BUFFER_BYTES];
    let filled = fill(rt, &mut buf);
    let next = filled.next;
    match next {
        Next::More => {
            refuse_long(rt, edition, fields, &mut buf);
        }
        Next::Done => {
            let end = filled.end;
            write_payload(rt, edition, fields, &buf[..end]);
        }
        Next::Failed => {}
    }
}

// Tells of the right words.
fn tell_words(rt: HostRuntime) {
    streams::say(
        rt,
        "usage: write flown|corrected and fourteen whole numbers, fields 0 to 13",
    );
}

fn run(rt: HostRuntime, edition: Edition) {
    let Some(values) = read_words(rt) else {
        tell_words(rt);
        return;
    };
    write_input(rt, edition, Fields::from_values(values));
}

fn main(rt: HostRuntime) {
    match options::word_at(rt, 1).edition() {
        Some(edition) => run(rt, edition),
        None => tell_words(rt),
    }
}
