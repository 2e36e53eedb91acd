// A search through a recording: what opens it; what is taken of bits that were read, and the lines of the marks of a piece, as many as a
// lent buffer has room for; what closes it.
#![tactic(auto)]

ghost use Rattle.std.specs.Prelude.{◌≡◌, ◌+◌, ◌*◌, ◌<◌, ◌≤◌, length};
ghost use Rattle.marks.specs.Pieces.{longest_recording};
ghost use Rattle.lines.specs.Tallies.{most_counted, total_of};
ghost use Rattle.lines.specs.Rooms.{line_room};
ghost use Rattle.lines.specs.Recordings.{ending_of};
ghost use Rattle.text.specs.Text.{Put};
ghost use Rattle.reporting.specs.Takings.{fitting_of, stop_after, taking_of};
ghost use Rattle.reporting.specs.Promises.{Opening, NextMark, LinePut, Reported};

use base::{Edition, Reason};
use lines::{Stop, Tally};
use marks::{LONGEST_RECORDING, Mark, State, Step};
use word::table::Syndromes;

// The room that a line may take.
pub const LINE_ROOM: usize = 168;

// A search is opened: the state before the first bit, the tally of nothing, and the place after the heading.
#[derive(Clone, Copy)]
pub struct Opened {
    pub state: State,
    pub tally: Tally,
    pub to: usize,
}

// Puts the heading.
pub fn open(out: &mut [u8]) -> Opened
    requires { line_room ≤ length out.old }
    ensures { Opening out.old out.new result }
{
    let to = search_lines::put_heading(out);
    Opened {
        state: marks::fresh(),
        tally: Tally {
            accepted: 0,
            refused: 0,
        },
        to,
    }
}

// How many of the bits that were read are taken, the state after these, and why no more are.
#[derive(Clone, Copy)]
pub struct Taking {
    pub n: usize,
    pub state: State,
    pub stop: Stop,
}

// How many bits a recording takes of n.
fn fitting(total: u32, n: usize) -> usize
    ensures { result ≡ fitting_of total n }
{
    let room = (LONGEST_RECORDING - total) as usize;
    if room < n {
        return room;
    }
    n
}

// Why no more than n of so many bits are taken, of which `fits` fit the recording.
fn stop_after(total: u32, n: usize, fits: usize, bits: usize) -> Stop
    requires { total + n ≤ longest_recording }
    ensures { result ≡ stop_after total n fits bits }
{
    if n < fits {
        return Some(Reason::NoBitInPiece.at(total as usize + n));
    }
    if fits < bits {
        return Some(Reason::LongRecording.at(LONGEST_RECORDING as usize));
    }
    None
}

// Takes the bits before the first that cannot be taken.
pub fn take_front(state: State, bits: &[u8]) -> Taking
    ensures { result ≡ taking_of state bits.now }
{
    let total = state.total;
    let fits = fitting(total, bits.len());
    let n = air::first_no_bit(&bits[..fits]);
    let taken = marks::take(state, &bits[..n]);
    let after = taken.state;
    Taking {
        n,
        state: after,
        stop: stop_after(total, n, fits, bits.len()),
    }
}

// A line was put: the tally after its header, and the place after it.
#[derive(Clone, Copy)]
struct Line {
    tally: Tally,
    to: usize,
}

// Some marks were told: the tally after their headers, the place after their lines, the position in the piece, and whether no more are left.
#[derive(Clone, Copy)]
pub struct Told {
    pub tally: Tally,
    pub to: usize,
    pub at: usize,
    pub over: bool,
}

// The next mark of a piece.
fn next_mark(state: State, piece: &[u8], at: usize) -> Step
    requires { state.total + length piece.now ≤ longest_recording }
    ensures { NextMark state piece.now at result }
{
    marks::find(state, piece, at)
}

// Puts the line of a mark, and counts its header.
fn put_mark(
    table: &Syndromes,
    edition: Edition,
    mark: Mark,
    tally: Tally,
    out: &mut [u8],
    to: usize,
) -> Line
    requires tally_bound { total_of tally < most_counted }
    requires line_room_in_bounds { to + line_room ≤ length out.old }
    ensures { LinePut edition mark tally out.old to out.new result }
{
    let read = search::read_mark_in(table, edition, mark);
    let next = search_lines::put_report(out, to, edition, mark.place as u64, read);
    let answer = read.answer;
    Line {
        tally: lines::count(tally, answer),
        to: next,
    }
}

// Puts the lines of the marks of a piece from a position on, as long as there is room, and counts their headers.
pub fn put_marks(
    table: &Syndromes,
    edition: Edition,
    state: State,
    piece: &[u8],
    from: usize,
    start: Tally,
    out: &mut [u8],
) -> Told
    requires piece_bound { state.total + length piece.now ≤ longest_recording }
    requires start_bound { total_of start ≤ state.total + from }
    requires from_in_bounds { from ≤ length piece.now }
    requires line_room_in_bounds { line_room ≤ length out.old }
    ensures { Reported edition state piece.now from start out.old out.new result }
{
    let mut tally = start;
    let mut to = 0;
    let mut at = from;
    // A `while`: it counts no index, and ends where the buffer has no room for a line.
    while LINE_ROOM <= out.len() - to {
        let step = next_mark(state, piece, at);
        let Some(mark) = step.mark else {
            return Told {
                tally,
                to,
                at,
                over: true,
            };
        };
        let line = put_mark(table, edition, mark, tally, out, to);
        tally = line.tally;
        to = line.to;
        at = step.next;
    }
    Told {
        tally,
        to,
        at,
        over: false,
    }
}

// Puts the last line, after why the search stopped.
pub fn close(total: u32, tally: Tally, stop: Stop, out: &mut [u8]) -> usize
    requires { 2 * line_room ≤ length out.old }
    ensures { Put out.old 0 (ending_of total tally stop) out.new result }
{
    search_lines::put_ending(out, 0, total as u64, tally, stop)
}
