// The text of a pass sheet, put into a lent slice at a place. Each function answers the place after what it put.
#![tactic(auto)]

ghost use Rattle.std.specs.Prelude.{◌≡◌, ◌+◌, ◌*◌, ◌≤◌, length};
ghost use Rattle.text.specs.Text.{Put};
ghost use Rattle.lines.specs.Rooms.{line_room};
ghost use Rattle.source.specs.Counts.{refusal_counts};
ghost use Rattle.sheet.specs.Sheets.{records_of};
ghost use Rattle.wide_sheet.specs.Wide.{held};
ghost use Rattle.sheet_lines.specs.Lines.{totals_title, lane_text, source_opening, source_line, heard_line, given_line, source_lines, refusal_lines, lines_of_sheet, totals_of};
ghost use Rattle.sheet_lines.specs.Rooms.{opening_room, lane_room, source_room, refusal_room, most_records, sheet_room, totals_room};

use base::Edition;
use lines::Tally;
use source::{Lane, REFUSAL_COUNTS, Source};
use wide_sheet::WideSheet;

// Puts the first line. (Each listing has a text and a room of its own: one function of both would be `put_text` again.)
pub fn put_title(out: &mut [u8]) -> usize
    requires { line_room ≤ length out.old }
    ensures put { Put out.old 0 totals_title out.new result }
    ensures upper_bound { result ≤ line_room }
{
    text::put_text(out, 0, b"pass sheet totals\n")
}

// Puts a lane: its counts and its last counter, or `-` where it has none.
fn put_lane(out: &mut [u8], at: usize, name: &[u8], lane: Lane) -> usize
    requires { at + lane_room name.now ≤ length out.old }
    ensures put { Put out.old at (lane_text name.now lane) out.new result }
    ensures upper_bound { result ≤ at + lane_room name.now }
{
    let numbers = [
        lane.frames as u64,
        lane.repaired as u64,
        lane.missed as u64,
        lane.repeats as u64,
        lane.last as u64,
    ];
    if lane.heard {
        return text::put_form(
            out,
            at,
            b" & frames % repaired % missed % repeats % last %",
            &numbers,
            name,
        );
    }
    text::put_form(
        out,
        at,
        b" & frames % repaired % missed % repeats % last -",
        &numbers,
        name,
    )
}

// Opens a source's line.
fn put_opening(out: &mut [u8], at: usize, edition: Edition, src_id: u8, source: Source) -> usize
    requires { at + opening_room ≤ length out.old }
    ensures put { Put out.old at (source_opening edition src_id source) out.new result }
    ensures upper_bound { result ≤ at + opening_room }
{
    let sums = source::summed(source);
    match edition {
        Edition::Flown => {
            let letter = lines::letter(src_id);
            let radio = header::radio(src_id);
            text::put_form(
                out,
                at,
                b"# radio % frames % repaired %",
                &[letter as u64, radio as u64, sums.frames, sums.repaired],
                b"",
            )
        }
        Edition::Corrected => text::put_form(
            out,
            at,
            b"source % frames % repaired %",
            &[src_id as u64, sums.frames, sums.repaired],
            b"",
        ),
    }
}

// Puts a source's line, the caller's lane first.
fn put_source(out: &mut [u8], at: usize, edition: Edition, src_id: u8, source: Source) -> usize
    requires { at + source_room ≤ length out.old }
    ensures put { Put out.old at (source_line edition src_id source) out.new result }
    ensures upper_bound { result ≤ at + source_room }
{
    let called = source.caller;
    let responded = source.responder;
    let a = put_opening(out, at, edition, src_id, source);
    let b = put_lane(out, a, b"caller", called);
    let c = put_lane(out, b, b"responder", responded);
    text::put_text(out, c, b"\n")
}

// Puts a source's line where frames of it were accepted.
fn put_heard(out: &mut [u8], at: usize, edition: Edition, src_id: u8, source: Source) -> usize
    requires { at + source_room ≤ length out.old }
    ensures put { Put out.old at (heard_line edition src_id source) out.new result }
    ensures upper_bound { result ≤ at + source_room }
{
    let sums = source::summed(source);
    if 0 < sums.frames {
        return put_source(out, at, edition, src_id, source);
    }
    at
}

// Puts how many frames were refused with a number, where there are any.
fn put_given(out: &mut [u8], at: usize, number: u8, frames: u32) -> usize
    requires { at + refusal_room ≤ length out.old }
    ensures put { Put out.old at (given_line number frames) out.new result }
    ensures upper_bound { result ≤ at + refusal_room }
{
    if 0 < frames {
        return text::put_form(
            out,
            at,
            b"refused % frames %\n",
            &[number as u64, frames as u64],
            b"",
        );
    }
    at
}

// The records of a sheet of an edition.
fn records_of(edition: Edition) -> usize
    ensures value { result ≡ records_of edition }
    ensures upper_bound { result ≤ most_records }
{
    match edition {
        Edition::Flown => sheet::RECORDS,
        Edition::Corrected => wide_sheet::WIDE_RECORDS,
    }
}

// Puts the lines of the sources that were heard. A sheet of the flown edition uses its first eight records.
fn put_sources(out: &mut [u8], at: usize, edition: Edition, sheet: WideSheet) -> usize
    requires { at + most_records * source_room ≤ length out.old }
    ensures put { Put out.old at (source_lines edition sheet.sources) out.new result }
    ensures upper_bound { result ≤ at + most_records * source_room }
{
    let records = records_of(edition);
    let mut to = at;
    for k in 0..records {
        let source = sheet.sources[k];
        to = put_heard(out, to, edition, k as u8, source);
    }
    to
}

// Puts the lines of the refusals that were given.
fn put_refusals(out: &mut [u8], at: usize, counts: [u32; REFUSAL_COUNTS]) -> usize
    requires { at + refusal_counts * refusal_room ≤ length out.old }
    ensures put { Put out.old at (refusal_lines counts) out.new result }
    ensures upper_bound { result ≤ at + refusal_counts * refusal_room }
{
    let mut to = at;
    for k in 0..REFUSAL_COUNTS {
        let number = source::counted_number(k);
        to = put_given(out, to, number, counts[k]);
    }
    to
}

// Puts the lines of a sheet.
fn put_sheet(out: &mut [u8], at: usize, edition: Edition, sheet: WideSheet) -> usize
    requires { at + sheet_room ≤ length out.old }
    ensures put { Put out.old at (lines_of_sheet edition (held sheet)) out.new result }
    ensures upper_bound { result ≤ at + sheet_room }
{
    let a = put_sources(out, at, edition, sheet);
    let counts = sheet.refusals;
    put_refusals(out, a, counts)
}

// Puts all that follows the first line: the lines of a sheet, and the last line, after `cut` where the input was cut.
pub fn put_totals(
    out: &mut [u8],
    edition: Edition,
    sheet: WideSheet,
    tally: Tally,
    cut: bool,
) -> usize
    requires { totals_room ≤ length out.old }
    ensures { Put out.old 0 (totals_of edition (held sheet) tally cut) out.new result }
{
    let a = put_sheet(out, 0, edition, sheet);
    lines::put_closing(out, a, tally, cut)
}
