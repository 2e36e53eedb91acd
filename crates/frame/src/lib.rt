// A frame: header and payload together.
#![tactic(auto)]

ghost use Rattle.std.specs.Prelude.{◌≡◌, Ok};
ghost use Rattle.base.specs.Checks.{first};
ghost use Rattle.sign.specs.Calls.{call_in};
ghost use Rattle.frame.specs.Frames.{frame, signed_frame, frame_with, payload_checks, frame_read};

use base::Reason;
use header::{Accepted, Answer, Read, Rules};
use word::table::Syndromes;

// Checks 7 and 8 on the payload of an accepted header.
fn judge_payload(accepted: Accepted, payload: &[u8]) -> Answer
    ensures { result ≡ first (Ok accepted) (payload_checks accepted.header payload.now) }
{
    let header = accepted.header;
    let pdu_length = header.pdu_length as usize;
    if payload.len() != pdu_length {
        return Err(Reason::OtherLength.at(pdu_length));
    }
    let crc13 = crc::crc13(payload);
    if crc13 != header.crc13 {
        return Err(Reason::Crc13Differs.at(crc13 as usize));
    }
    Ok(accepted)
}

// The reader, by a lent syndrome table: what a caller with many frames makes once. `call` is the call sign bits, where any are
// given; the edition says whether they are looked at.
pub fn read_frame_with(
    table: &Syndromes,
    rules: Rules,
    call: Option<&[u8]>,
    air: &[u8],
    payload: &[u8],
) -> Read
    ensures { result ≡ frame_read (frame_with rules (call_in call.entry) air.now payload.now) }
{
    let read = header_reader::read_header_with(table, rules, call, air);
    match read.answer {
        Ok(accepted) => header::with_patterns(judge_payload(accepted, payload), read.patterns),
        Err(_) => read,
    }
}

// The same with no call sign bits.
pub fn read_frame_in(table: &Syndromes, rules: Rules, air: &[u8], payload: &[u8]) -> Read
    ensures { result ≡ frame_read (frame rules air.now payload.now) }
{
    read_frame_with(table, rules, None, air, payload)
}

// The reader of any two slices: accepted with the repaired header, the number of flips and the patterns, or the first refusal
// of 20, 1, 2, 3, 21, 4, 5, 6, 7, 8. A checksum that differs is a refusal, so it is never told beside an accepted frame.
pub fn read_frame(rules: Rules, air: &[u8], payload: &[u8]) -> Read
    ensures { result ≡ frame_read (frame rules air.now payload.now) }
{
    let table = Syndromes::new();
    read_frame_in(&table, rules, air, payload)
}

// The same with call sign bits, any bytes: 23 after 2, and 24 after 5. Under the corrected edition they are not looked at.
pub fn read_frame_signed(rules: Rules, call: &[u8], air: &[u8], payload: &[u8]) -> Read
    ensures { result ≡ frame_read (signed_frame rules call.now air.now payload.now) }
{
    let table = Syndromes::new();
    read_frame_with(&table, rules, Some(call), air, payload)
}
