// Sheets: a frame offered to a made-up sheet, and the numbers of a source on one.
ghost use Rattle.std.specs.Prelude.{◌≡◌, ◌+◌, ◌<◌, ◌≤◌};
ghost use Rattle.marshalling.specs.declared.format.TheConstants.{COUNTS_AFTER, LANE, RECORD_BYTES, REPLY_BYTES, SHEETS_HEADER, SIGNED, SOURCE};

use crate::frames;
use marshalling::format::{Record, Reply};
use marshalling::{format, numbers};
use sheet::{FlownOffered, FlownSheet};
use source::{Lane, REFUSAL_COUNTS, Source};

fn lane_at(record: &Record, at: usize) -> Lane
    requires { at + LANE ≤ RECORD_BYTES }
{
    Lane {
        frames: numbers::four_at(record, at) as u32,
        repaired: numbers::four_at(record, at + 4) as u32,
        missed: numbers::four_at(record, at + 8) as u32,
        repeats: numbers::four_at(record, at + 12) as u32,
        heard: record[at + 16] == 1,
        last: record[at + 17],
    }
}

// The caller's lane, then the responder's.
pub fn source_at(record: &Record, at: usize) -> Source
    requires { at + SOURCE ≤ RECORD_BYTES }
{
    Source {
        caller: lane_at(record, at),
        responder: lane_at(record, at + format::LANE),
    }
}

// Whether all bytes are 0.
fn all_zero(bytes: &[u8]) -> bool {
    bytes.iter().all(|byte| *byte == 0)
}

// Whether a source of the record is all 0.
fn is_silent(record: &Record, at: usize) -> bool
    requires { at + SOURCE ≤ RECORD_BYTES }
{
    all_zero(numbers::part(record, at, at + format::SOURCE))
}

// The sheet that starts at a place, which is 0 or behind rules and call sign: its sources, and its counts. A source that is all 0 is that of a
// new sheet.
fn sources_of(record: &Record, sheet: usize) -> [Source; 8]
    requires { sheet ≤ SIGNED }
{
    let fresh = sheet::new_sheet();
    let mut sources = fresh.sources;
    for k in 0..8 {
        let at = sheet + k * format::SOURCE;
        if !is_silent(record, at) {
            let source = source_at(record, at);
            sources[k] = source;
        }
    }
    sources
}

// The counts that start at a place.
pub fn counts_of(record: &Record, counts: usize) -> [u32; REFUSAL_COUNTS]
    requires { counts ≤ SHEETS_HEADER }
{
    let mut read = [0u32; REFUSAL_COUNTS];
    for k in 0..REFUSAL_COUNTS {
        read[k] = numbers::four_at(record, counts + k * format::COUNT) as u32;
    }
    read
}

fn sheet_of(record: &Record, sheet: usize) -> FlownSheet
    requires { sheet ≤ SIGNED }
{
    let sources = sources_of(record, sheet);
    let refusals = counts_of(record, sheet + format::REFUSALS);
    FlownSheet { sources, refusals }
}

// Puts a lane, and answers the place after it. The last counter is 0 where the lane was not heard.
pub fn put_lane(reply: &mut Reply, at: usize, lane: Lane) -> usize
    requires { at + LANE ≤ REPLY_BYTES }
    ensures { result ≡ at + LANE }
{
    let next = numbers::put_four(reply, at, lane.frames);
    let next = numbers::put_four(reply, next, lane.repaired);
    let next = numbers::put_four(reply, next, lane.missed);
    let next = numbers::put_four(reply, next, lane.repeats);
    if lane.heard {
        let next = numbers::put_byte(reply, next, 1);
        return numbers::put_byte(reply, next, lane.last);
    }
    at + format::LANE
}

fn put_source(reply: &mut Reply, k: usize, source: Source)
    requires { k < 8 }
{
    let caller = source.caller;
    let responder = source.responder;
    let next = put_lane(reply, format::SHEET_AFTER + k * format::SOURCE, caller);
    put_lane(reply, next, responder);
}

pub fn put_counts(reply: &mut Reply, at: usize, counts: [u32; REFUSAL_COUNTS])
    requires { at ≤ COUNTS_AFTER }
{
    let mut next = at;
    for count in counts {
        next = numbers::put_four(reply, next, count);
    }
}

fn put_sheet(reply: &mut Reply, sheet: FlownSheet) {
    let sources = sheet.sources;
    for k in 0..8 {
        let source = sources[k];
        put_source(reply, k, source);
    }
    let refusals = sheet.refusals;
    put_counts(reply, format::COUNTS_AFTER, refusals);
}

// The frame offered, with call sign bits or without them.
fn offered_to(record: &Record, header: &[u8], payload: &[u8]) -> FlownOffered {
    let sheet = sheet_of(record, format::SIGNED);
    let rules = frames::rules_of(record);
    if frames::is_signed(record) {
        return sheet::offer_signed(sheet, rules, frames::call_of(record), header, payload);
    }
    sheet::offer(sheet, rules, header, payload)
}

pub fn sheet_reply(record: &Record, reply: &mut Reply) {
    let mut space = [0u8; format::PAYLOAD_ROOM];
    let payload = numbers::payload_at(record, format::SHEETS_RULE, &mut space);
    let header = numbers::part(record, format::SHEETS_HEADER, format::SHEETS_RULE);
    let offered = offered_to(record, header, payload);
    let read = offered.read;
    let after = offered.sheet;
    frames::put_read(reply, read);
    put_sheet(reply, after);
}

// The lanes of a source, and the sums over both.
pub fn source_reply(record: &Record, reply: &mut Reply) {
    let display = sheet::display_of(sheet_of(record, 0), record[format::SOURCES_NUMBER]);
    let caller = display.caller;
    let responder = display.responder;
    let next = put_lane(reply, 0, caller);
    let next = put_lane(reply, next, responder);
    let next = numbers::put_eight(reply, next, display.frames);
    numbers::put_eight(reply, next, display.repaired);
}
