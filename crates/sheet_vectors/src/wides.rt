// Wide sheets: a frame offered to a made-up one, of whose sources one was heard.
ghost use Rattle.std.specs.Prelude.{◌<◌};

use crate::{frames, sheets};
use header::Answer;
use marshalling::format::{Record, Reply};
use marshalling::{format, numbers};
use wide_sheet::WideSheet;

// The number of the source that was heard. One above 127 counts as 127.
fn heard_source(record: &Record) -> u8
    ensures { result < 128 }
{
    let source = record[format::RULES];
    if 127 < source {
        return 127;
    }
    source
}

// The sheet: new, but for one source and the counts.
fn wide_sheet_of(record: &Record) -> WideSheet {
    let mut sheet = wide_sheet::new_wide_sheet();
    let source = sheets::source_at(record, format::WIDES_LANES);
    let k = heard_source(record) as usize;
    sheet.sources[k] = source;
    let counts = sheets::counts_of(record, format::WIDES_REFUSALS);
    sheet.refusals = counts;
    sheet
}

// The source that is shown: that of an accepted frame, else that of the record.
fn shown_source(record: &Record, answer: Answer) -> u8 {
    match answer {
        Ok(accepted) => accepted.header.fields.src_id,
        Err(_) => heard_source(record),
    }
}

fn put_wide_sheet(reply: &mut Reply, sheet: WideSheet, source: u8) {
    let display = wide_sheet::display_of_wide(sheet, source);
    let caller = display.caller;
    let responder = display.responder;
    let next = numbers::put_byte(reply, format::SHEET_AFTER, source);
    let next = sheets::put_lane(reply, next, caller);
    sheets::put_lane(reply, next, responder);
    let counts = sheet.refusals;
    sheets::put_counts(reply, format::WIDE_REFUSALS, counts);
    numbers::put_eight(reply, format::WIDE_HEARD, wide_sheet::heard_wide(sheet));
}

pub fn wide_reply(record: &Record, reply: &mut Reply) {
    let mut space = [0u8; format::PAYLOAD_ROOM];
    let payload = numbers::payload_at(record, format::WIDES_RULE, &mut space);
    let header = numbers::part(record, format::WIDES_HEADER, format::WIDES_RULE);
    let offered = wide_sheet::offer_wide(
        wide_sheet_of(record),
        frames::rules_of(record),
        header,
        payload,
    );
    let read = offered.read;
    let after = offered.sheet;
    let answer = read.answer;
    frames::put_read(reply, read);
    put_wide_sheet(reply, after, shown_source(record, answer));
}
