// The writer of a record: the payload's length, the 210 air bits of its header, and the payload, as records of a pass are read.
#![tactic(auto)]

ghost use Rattle.std.specs.Prelude.{◌≡◌, ◌++◌, ◌≤◌, length, drop};
ghost use Rattle.air.specs.Air.{air_bits, payload_limit};
ghost use Rattle.record.specs.Records.{record_size};
ghost use Rattle.record_writer.specs.LongPayload.{whole_of};
ghost use Rattle.record_writer.specs.Writing.{room_for, record_from, RecordWritten};

use air::{AIR_BITS, LONGEST_PAYLOAD};
use base::{Edition, Reason, Refusal, Written};
use header::Fields;
use record::PAYLOAD_START;

// The bytes of the longest record.
pub const LONGEST_RECORD: usize = PAYLOAD_START + LONGEST_PAYLOAD;

// The room that a record with so many payload bytes asks for. More than 1,023 are never written, so they ask for no more.
fn room_for(n: usize) -> usize
    ensures { result ≡ room_for n }
{
    if LONGEST_PAYLOAD < n {
        return LONGEST_RECORD;
    }
    PAYLOAD_START + n
}

// Puts the record of some air bits and a payload at the start of the output.
fn put_record(air: &[u8], payload: &[u8], out: &mut [u8])
    requires air_len { length air.now ≡ air_bits }
    requires payload_len_bound { length payload.now ≤ payload_limit }
    requires payload_in_bounds { record_size (length payload.now) ≤ length out.old }
    ensures { out.new ≡ record_from air.now payload.now ++ drop (record_size (length payload.now)) out.old }
{
    let n = payload.len();
    let size = [(n / 256) as u8, (n % 256) as u8];
    let a = text::put_text(out, 0, &size);
    let b = text::put_text(out, a, air);
    text::put_text(out, b, payload);
}

// The writer: the record of a payload under its header at the start of the output; or the first refusal of 13 to 15, and then no
// byte is changed. PduLength and both checksums are worked out.
pub fn write_record(edition: Edition, fields: Fields, payload: &[u8], out: &mut [u8]) -> Written
    ensures { RecordWritten edition fields payload.now out.old result out.new }
{
    let room = out.len();
    if room < room_for(payload.len()) {
        return Err(Reason::ShortOutput.at(room));
    }
    let mut air = [0u8; AIR_BITS];
    header_writer::write_header(edition, fields, payload, &mut air)?;
    put_record(&air, payload, out);
    Ok(())
}

const LONG_PAYLOAD: u8 = Reason::LongPayload as u8;

// The refusal of a payload of this size, by that of a part of it that is itself over 1,023: what a caller tells that cannot hold it all.
pub fn of_whole(why: Refusal, size: usize) -> Refusal
    ensures { result ≡ whole_of why size }
{
    if why.number == LONG_PAYLOAD {
        return Reason::LongPayload.at(size);
    }
    why
}
