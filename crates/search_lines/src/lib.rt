// The lines of a search through a recording, put into a lent slice at a place. Each function answers the place after what it put.
#![tactic(auto)]

ghost use Rattle.std.specs.Prelude.{◌+◌, ◌*◌, ◌≤◌, length};
ghost use Rattle.text.specs.Text.{Put};
ghost use Rattle.lines.specs.Recordings.{heading, report_line, stop_of, last_of, ending_of};
ghost use Rattle.lines.specs.Rooms.{line_room};

use base::Edition;
use header::Read;
use lines::{Stop, Tally, put_accepted, put_refused};

// Puts the first line. (Each listing has a text and a room of its own: one function of both would be `put_text` again.)
pub fn put_heading(out: &mut [u8]) -> usize
    requires { line_room ≤ length out.old }
    ensures put { Put out.old 0 heading out.new result }
    ensures upper_bound { result ≤ line_room }
{
    text::put_text(out, 0, b"recording\n")
}

// Puts the line of a header that follows a marker at this place.
pub fn put_report(out: &mut [u8], at: usize, edition: Edition, place: u64, read: Read) -> usize
    requires { at + line_room ≤ length out.old }
    ensures put { Put out.old at (report_line edition place read) out.new result }
    ensures upper_bound { result ≤ at + line_room }
{
    let answer = read.answer;
    let patterns = read.patterns;
    match answer {
        Ok(accepted) => put_accepted(
            out,
            at,
            edition,
            place,
            accepted.header.fields.src_id,
            accepted.header.fields.fr_cnt_tx,
            accepted.flips,
            air::worst(patterns),
            b" length ",
            accepted.header.pdu_length as usize,
        ),
        Err(why) => put_refused(out, at, place, why),
    }
}

// Puts why a search stopped, where it did.
fn put_stop(out: &mut [u8], at: usize, stop: Stop) -> usize
    requires { at + line_room ≤ length out.old }
    ensures put { Put out.old at (stop_of stop) out.new result }
    ensures upper_bound { result ≤ at + line_room }
{
    match stop {
        None => at,
        Some(why) => {
            text::put_form(
                out,
                at,
                b"stopped % %\n",
                &[why.number as u64, why.place as u64],
                b"",
            )
        }
    }
}

fn put_last(out: &mut [u8], at: usize, bits: u64, tally: Tally) -> usize
    requires { at + line_room ≤ length out.old }
    ensures { Put out.old at (last_of bits tally) out.new result }
{
    let heard = lines::total(tally);
    text::put_form(
        out,
        at,
        b"bits % headers % accepted % refused %\n",
        &[bits, heard, tally.accepted as u64, tally.refused as u64],
        b"",
    )
}

// Puts the last line, after why the search stopped.
pub fn put_ending(out: &mut [u8], at: usize, bits: u64, tally: Tally, stop: Stop) -> usize
    requires { at + 2 * line_room ≤ length out.old }
    ensures { Put out.old at (ending_of bits tally stop) out.new result }
{
    let a = put_stop(out, at, stop);
    put_last(out, a, bits, tally)
}
