// The text of every line, put into a lent slice at a place. Each function answers the place after what it put.
#![tactic(auto)]

ghost use Rattle.std.specs.Prelude.{◌≡◌, ◌++◌, ◌+◌, ◌*◌, ◌<◌, ◌≤◌, length};
ghost use Rattle.text.specs.Text.{decimal_of, most_digits, Put};
ghost use Rattle.lines.specs.Tallies.{most_counted, total_of, tally_after};
ghost use Rattle.lines.specs.Lines.{title, letter_of, accepted_line, refused_line, line_of, last_line, closing_of};
ghost use Rattle.lines.specs.Rooms.{speaker_of, speaker_room, opening_of, opening_room, damage_of, name_room, damage_room, line_room};

use base::{Edition, Refusal};
use header::{Answer, Read};

// How many records were accepted so far, and how many refused.
#[derive(Clone, Copy)]
pub struct Tally {
    pub accepted: u32,
    pub refused: u32,
}

// Why a search stopped before the end of its input, if it did.
pub type Stop = Option<Refusal>;

// All of them: what the last line says was heard.
pub fn total(tally: Tally) -> u64
    ensures { result ≡ total_of tally }
{
    tally.accepted as u64 + tally.refused as u64
}

// A tally after an answer.
pub fn count(tally: Tally, answer: Answer) -> Tally
    requires { total_of tally < most_counted }
    ensures { result ≡ tally_after tally answer }
{
    match answer {
        Ok(_) => {
            let accepted = tally.accepted + 1;
            Tally {
                accepted,
                refused: tally.refused,
            }
        }
        Err(_) => {
            let refused = tally.refused + 1;
            Tally {
                accepted: tally.accepted,
                refused,
            }
        }
    }
}

// A to D for the sources 0 to 7.
pub fn letter(src_id: u8) -> u8
    ensures { result ≡ letter_of src_id }
{
    b'A' + header::satellite(src_id)
}

// The lines of a listing are put part by part: `put_form` reads its form letter by letter, and the flown listing would be slower.

// Puts three numbers, each with a text after it.
fn put_three(
    out: &mut [u8],
    at: usize,
    x: u64,
    after_x: &[u8],
    y: u64,
    after_y: &[u8],
    z: u64,
    after_z: &[u8],
) -> usize
    requires { at + (3 * most_digits + (length after_x.now + length after_y.now + length after_z.now)) ≤ length out.old }
    ensures put { Put out.old at ((decimal_of x ++ after_x.now) ++ (decimal_of y ++ after_y.now) ++ (decimal_of z ++ after_z.now)) out.new result }
    ensures upper_bound { result ≤ at + (3 * most_digits + (length after_x.now + length after_y.now + length after_z.now)) }
{
    let a = text::put_field(out, at, x, after_x);
    let b = text::put_field(out, a, y, after_y);
    text::put_field(out, b, z, after_z)
}

// Puts who spoke, as `B radio 2`.
fn put_radio(out: &mut [u8], at: usize, src_id: u8) -> usize
    requires { at + speaker_room ≤ length out.old }
    ensures put { Put out.old at (speaker_of Edition.Flown src_id) out.new result }
    ensures upper_bound { result ≤ at + speaker_room }
{
    let name = [letter(src_id)];
    let a = text::put_text(out, at, &name);
    let b = text::put_text(out, a, b" radio ");
    text::put_decimal(out, b, header::radio(src_id) as u64)
}

// Puts who spoke, as `source 97`: under the corrected edition a frame is given to no S-NET satellite.
fn put_number(out: &mut [u8], at: usize, src_id: u8) -> usize
    requires { at + speaker_room ≤ length out.old }
    ensures put { Put out.old at (speaker_of Edition.Corrected src_id) out.new result }
    ensures upper_bound { result ≤ at + speaker_room }
{
    let a = text::put_text(out, at, b"source ");
    text::put_decimal(out, a, src_id as u64)
}

// Opens the line of an accepted record k.
fn put_opening(out: &mut [u8], at: usize, edition: Edition, k: u64, src_id: u8) -> usize
    requires { at + opening_room ≤ length out.old }
    ensures put { Put out.old at (opening_of edition k src_id) out.new result }
    ensures upper_bound { result ≤ at + opening_room }
{
    let a = text::put_field(out, at, k, b" accepted ");
    match edition {
        Edition::Flown => put_radio(out, a, src_id),
        Edition::Corrected => put_number(out, a, src_id),
    }
}

// Puts the rest of it: the counter, the flips, the word with the most of them, and a number that is named.
fn put_damage(
    out: &mut [u8],
    at: usize,
    tx: u8,
    flips: u32,
    worst: usize,
    name: &[u8],
    n: usize,
) -> usize
    requires damage_room_in_bounds { at + damage_room ≤ length out.old }
    requires name_len_bound { length name.now ≤ name_room }
    ensures put { Put out.old at (damage_of tx flips worst name.now n) out.new result }
    ensures upper_bound { result ≤ at + damage_room }
{
    let a = text::put_field(out, at, tx as u64, b" repaired ");
    let b = text::put_field(out, a, flips as u64, b" worst ");
    let c = text::put_field(out, b, worst as u64, name);
    text::put_field(out, c, n as u64, b"\n")
}

// Puts the line of an accepted record or header.
pub fn put_accepted(
    out: &mut [u8],
    at: usize,
    edition: Edition,
    k: u64,
    src_id: u8,
    tx: u8,
    flips: u32,
    worst: usize,
    name: &[u8],
    n: usize,
) -> usize
    requires line_room_in_bounds { at + line_room ≤ length out.old }
    requires name_len_bound { length name.now ≤ name_room }
    ensures put { Put out.old at (accepted_line edition k src_id tx flips worst name.now n) out.new result }
    ensures upper_bound { result ≤ at + line_room }
{
    let a = put_opening(out, at, edition, k, src_id);
    let b = text::put_text(out, a, b" tx ");
    put_damage(out, b, tx, flips, worst, name, n)
}

// Puts the line of record k, which is refused.
pub fn put_refused(out: &mut [u8], at: usize, k: u64, why: Refusal) -> usize
    requires { at + line_room ≤ length out.old }
    ensures put { Put out.old at (refused_line k why) out.new result }
    ensures upper_bound { result ≤ at + line_room }
{
    put_three(
        out,
        at,
        k,
        b" refused ",
        why.number as u64,
        b" ",
        why.place as u64,
        b"\n",
    )
}

// Puts the line of record k, which has so many payload bytes.
pub fn put_line(
    out: &mut [u8],
    at: usize,
    edition: Edition,
    k: u64,
    bytes: usize,
    read: Read,
) -> usize
    requires { at + line_room ≤ length out.old }
    ensures put { Put out.old at (line_of edition k bytes read) out.new result }
    ensures upper_bound { result ≤ at + line_room }
{
    let answer = read.answer;
    let patterns = read.patterns;
    match answer {
        Ok(accepted) => put_accepted(
            out,
            at,
            edition,
            k,
            accepted.header.fields.src_id,
            accepted.header.fields.fr_cnt_tx,
            accepted.flips,
            air::worst(patterns),
            b" bytes ",
            bytes,
        ),
        Err(why) => put_refused(out, at, k, why),
    }
}

// Puts the first line. (Each listing has a text and a room of its own: one function of both would be `put_text` again.)
pub fn put_title(out: &mut [u8]) -> usize
    requires { line_room ≤ length out.old }
    ensures put { Put out.old 0 title out.new result }
    ensures upper_bound { result ≤ line_room }
{
    text::put_text(out, 0, b"pass sheet\n")
}

fn put_last(out: &mut [u8], at: usize, tally: Tally) -> usize
    requires { at + line_room ≤ length out.old }
    ensures { Put out.old at (last_line tally) out.new result }
{
    let a = text::put_text(out, at, b"heard ");
    put_three(
        out,
        a,
        total(tally),
        b" accepted ",
        tally.accepted as u64,
        b" refused ",
        tally.refused as u64,
        b"\n",
    )
}

// Puts the last line, after `cut` where the input was cut. (Alike in three listings; one function would take the last line as a closure, and be longer.)
pub fn put_closing(out: &mut [u8], at: usize, tally: Tally, cut: bool) -> usize
    requires { at + 2 * line_room ≤ length out.old }
    ensures { Put out.old at (closing_of tally cut) out.new result }
{
    if cut {
        let a = text::put_text(out, at, b"cut\n");
        return put_last(out, a, tally);
    }
    put_last(out, at, tally)
}
