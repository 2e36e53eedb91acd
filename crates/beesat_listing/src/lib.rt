// The listing of frames of BEESAT-1: its first line, a line for each of the whole frames of a piece, and its last lines.
#![tactic(auto)]

mod frame_lines;

ghost use Rattle.std.specs.Prelude.{◌+◌, ◌*◌, ◌<◌, ◌≤◌, ◌^◌, length};
ghost use Rattle.text.specs.Text.{Put};
ghost use Rattle.walk.specs.Walks.{waiting, cut_with};
ghost use Rattle.walk.specs.Scans.{Scanned, Turned};
ghost use Rattle.beesat.specs.Reading.{read_of};
ghost use Rattle.walk.specs.Promises.{Opens, Takes};
ghost use Rattle.beesat_listing.specs.Counting.{no_counts, heard_of};
ghost use Rattle.beesat_listing.specs.Lines.{title, frame_line, closing_of, line_room};
ghost use Rattle.beesat_listing.specs.Listing.{next_counts, frame_walk};

use beesat::FRAME_BYTES;
pub use frame_lines::put_refusal;
use frame_lines::{counted, heard, put_closing, put_line, put_title};
use walk::{After, Listed};

// How many frames of each kind there were.
#[derive(Clone, Copy)]
pub struct Counts {
    pub telemetry: u64,
    pub idle: u64,
    pub refused: u64,
}

// Opens a listing: puts the first line.
pub fn open(out: &mut [u8]) -> After<Counts>
    requires { line_room ≤ length out.old }
    ensures { Opens no_counts title out.old out.new result }
{
    let to = put_title(out);
    After {
        state: Counts {
            telemetry: 0,
            idle: 0,
            refused: 0,
        },
        to,
    }
}

// Reads a frame, and puts its line into `out` at `to`.
fn take_frame(counts: Counts, frame: &[u8], out: &mut [u8], to: usize) -> After<Counts>
    requires counts_bound { heard_of counts + 1 < 2 ^ 64 }
    requires line_room_in_bounds { to + line_room ≤ length out.old }
    ensures { Takes (next_counts counts frame.now) (frame_line (heard_of counts) (read_of frame.now)) line_room out.old to out.new result }
{
    let read = beesat::read_frame(frame);
    let next = put_line(out, to, heard(counts), read);
    let answer = read.answer;
    After {
        state: counted(counts, answer),
        to: next,
    }
}

// All whole frames of a piece: their lines go into `out` from `at` on. A line takes at most eight bytes for each byte of its frame.
pub fn list_frames(start: Counts, piece: &[u8], out: &mut [u8], at: usize) -> Listed<Counts, ()>
    requires piece_bound { heard_of start + length piece.now < 2 ^ 64 }
    requires piece_in_bounds { at + 8 * length piece.now ≤ length out.old }
    ensures { Scanned frame_walk 8 start piece.now out.old at out.new result.state result.left result.to waiting }
{
    let mut counts = start;
    let mut rest = piece;
    let mut to = at;
    // A `while`: it counts no index, frames are cut off the front, and what is left is told.
    while FRAME_BYTES <= rest.len() {
        let taken = take_frame(counts, &rest[..FRAME_BYTES], out, to);
        counts = taken.state;
        to = taken.to;
        rest = &rest[FRAME_BYTES..];
    }
    Listed {
        state: counts,
        left: rest.len(),
        to,
        ending: (),
    }
}

// The first `end` bytes of a buffer: the lines of their frames go into `out`, and what is left goes to the buffer's front.
pub fn list_piece(counts: Counts, buf: &mut [u8], end: usize, out: &mut [u8]) -> Listed<Counts, ()>
    requires end_bound { heard_of counts + end < 2 ^ 64 }
    requires end_in_bounds { end ≤ length buf.old }
    requires end_in_bounds_2 { 8 * end ≤ length out.old }
    ensures { Turned frame_walk 8 counts buf.old end out.old buf.new out.new result.state result.left result.to waiting }
{
    let listed = list_frames(counts, &buf[..end], out, 0);
    let left = listed.left;
    walk::keep_last(buf, end, left);
    listed
}

// Closes a listing: puts the last line, after `cut` where bytes are left.
pub fn close(counts: Counts, left: usize, out: &mut [u8]) -> usize
    requires counts_bound { heard_of counts < 2 ^ 64 }
    requires line_room_in_bounds { 2 * line_room ≤ length out.old }
    ensures { Put out.old 0 (closing_of counts (cut_with left)) out.new result }
{
    put_closing(out, 0, counts, 0 < left)
}
