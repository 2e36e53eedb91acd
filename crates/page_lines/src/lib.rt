// The text of every line about power pages, put into a lent slice at a place. Each function answers the place after what it put.
#![tactic(auto)]

mod rows;
mod tables;

ghost use Rattle.std.specs.Prelude.{◌≡◌, ◌+◌, ◌<◌, ◌≤◌, length};
ghost use Rattle.text.specs.Text.{Put};
ghost use Rattle.lines.specs.Tallies.{most_counted};
ghost use Rattle.page_lines.specs.Counting.{records_heard, counted_of};
ghost use Rattle.page_lines.specs.Lines.{title, head_line, lines_of_page, answer_lines, record_lines, pages_line, closing_of};
ghost use Rattle.page_lines.specs.Rooms.{head_room, page_room, closing_room};

use header::Answer;
use page::{PageAnswer, PageVerdict};
use rows::put_rows;
pub use rows::{PowerRow, put_name};
use tables::ROWS;

// How many records were pages so far, how many were accepted and were none, and how many were refused as frames.
#[derive(Clone, Copy)]
pub struct Counts {
    pub pages: u32,
    pub others: u32,
    pub refused: u32,
}

// All of them.
pub fn heard_in(counts: Counts) -> u64
    ensures { result ≡ records_heard counts }
{
    counts.pages as u64 + counts.others as u64 + counts.refused as u64
}

// One record more, whose frame has this answer, and its payload this one.
pub fn count(counts: Counts, answer: Answer, verdict: PageVerdict) -> Counts
    requires { records_heard counts < most_counted }
    ensures { result ≡ counted_of counts verdict answer }
{
    let pages = counts.pages;
    let others = counts.others;
    let refused = counts.refused;
    match answer {
        Ok(_) => match verdict {
            Ok(_) => Counts {
                pages: pages + 1,
                others,
                refused,
            },
            Err(_) => Counts {
                pages,
                others: others + 1,
                refused,
            },
        },
        Err(_) => Counts {
            pages,
            others,
            refused: refused + 1,
        },
    }
}

// Opens the lines of a page in record k: who spoke, and the frame's counter.
fn put_head(out: &mut [u8], at: usize, k: u64, src_id: u8, tx: u8) -> usize
    requires { at + head_room ≤ length out.old }
    ensures put { Put out.old at (head_line k src_id tx) out.new result }
    ensures upper_bound { result ≤ at + head_room }
{
    let letter = lines::letter(src_id);
    let radio = header::radio(src_id);
    text::put_form(
        out,
        at,
        b"% page # radio % tx %\n",
        &[k, letter as u64, radio as u64, tx as u64],
        b"",
    )
}

fn put_page(out: &mut [u8], at: usize, k: u64, src_id: u8, tx: u8, rows: [i16; ROWS]) -> usize
    requires { at + page_room ≤ length out.old }
    ensures put { Put out.old at (lines_of_page k src_id tx rows) out.new result }
    ensures upper_bound { result ≤ at + page_room }
{
    let a = put_head(out, at, k, src_id, tx);
    put_rows(out, a, k, rows)
}

// Puts the lines of an accepted record k: its page, or why its payload is none.
fn put_answer(out: &mut [u8], at: usize, k: u64, src_id: u8, tx: u8, page: PageAnswer) -> usize
    requires { at + page_room ≤ length out.old }
    ensures put { Put out.old at (answer_lines k src_id tx page) out.new result }
    ensures upper_bound { result ≤ at + page_room }
{
    let rows = page.rows;
    let verdict = page.verdict;
    match verdict {
        Ok(_) => put_page(out, at, k, src_id, tx, rows),
        Err(why) => lines::put_refused(out, at, k, why),
    }
}

// Puts the lines of record k, whose frame has this answer, and its payload that one.
pub fn put_record(out: &mut [u8], at: usize, k: u64, answer: Answer, page: PageAnswer) -> usize
    requires { at + page_room ≤ length out.old }
    ensures put { Put out.old at (record_lines k page answer) out.new result }
    ensures upper_bound { result ≤ at + page_room }
{
    match answer {
        Ok(accepted) => put_answer(
            out,
            at,
            k,
            accepted.header.fields.src_id,
            accepted.header.fields.fr_cnt_tx,
            page,
        ),
        Err(why) => lines::put_refused(out, at, k, why),
    }
}

// Puts the first line. (Each listing has a text and a room of its own: one function of both would be `put_text` again.)
pub fn put_title(out: &mut [u8]) -> usize
    requires { closing_room ≤ length out.old }
    ensures { Put out.old 0 title out.new result }
{
    text::put_text(out, 0, b"power pages\n")
}

fn put_last(out: &mut [u8], at: usize, counts: Counts) -> usize
    requires { at + closing_room ≤ length out.old + 4 }
    ensures { Put out.old at (pages_line counts) out.new result }
{
    let pages = counts.pages as u64;
    let accepted = pages + counts.others as u64;
    let heard = accepted + counts.refused as u64;
    text::put_form(
        out,
        at,
        b"heard % accepted % pages %\n",
        &[heard, accepted, pages],
        b"",
    )
}

// Puts the last line, after `cut` where the input was cut. (Alike in three listings; one function would take the last line as a closure, and be longer.)
pub fn put_closing(out: &mut [u8], at: usize, counts: Counts, cut: bool) -> usize
    requires { at + closing_room ≤ length out.old }
    ensures { Put out.old at (closing_of counts cut) out.new result }
{
    if cut {
        let a = text::put_text(out, at, b"cut\n");
        return put_last(out, a, counts);
    }
    put_last(out, at, counts)
}
