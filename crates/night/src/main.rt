// Searches the recording on standard input for headers, after each read. It moves bits and does nothing else: what is taken of them, and
// the text from the heading to the last line, are `reporting`'s.
#![tactic(auto)]

ghost use Rattle.std.specs.Prelude.{◌≡◌, ◌+◌, ◌≤◌, IfSome, length};
ghost use Rattle.lines.specs.Tallies.{nothing_heard, total_of};
ghost use Rattle.marks.specs.Pieces.{longest_recording, fresh_state};
ghost use Rattle.night.specs.Turns.{AllTold, MovesOn, Goes, Whole, Closing};

use base::Edition;
use lines::{Stop, Tally};
use marks::State;
use reporting::Opened;
use streams::{Next, after_read, ended, read_on, write};
use word::table::Syndromes;

// How much is read at once, and how much is written.
const BUFFER_BYTES: usize = 65536;

// What a search needs: the table and the edition.
#[derive(Drop)]
struct Searcher {
    table: Syndromes,
    edition: Edition,
}

// What a turn leaves: the state, the tally, why the search stopped, how many bytes the read left in the buffer, and whether no more is read,
// as where it stopped.
#[derive(Clone, Copy)]
struct Turned {
    state: State,
    tally: Tally,
    stop: Stop,
    end: usize,
    over: bool,
}

impl Searcher {
    // Writes the lines of all marks of a piece, a buffer at a time, and answers the tally with them. None where a write fails.
    fn report_all(
        &self,
        rt: HostRuntime,
        state: State,
        piece: &[u8],
        start: Tally,
        out: &mut [u8; BUFFER_BYTES],
    ) -> Option<Tally>
        requires start_bound { total_of start ≤ state.total }
        requires piece_bound { state.total + length piece.now ≤ longest_recording }
        ensures { IfSome result (AllTold self.now.edition state piece.now start) }
    {
        let mut tally = start;
        let mut at = 0;
        loop {
            let told = reporting::put_marks(
                &self.table,
                self.edition,
                state,
                piece,
                at,
                tally,
                out,
            );
            let to = told.to;
            if !write(rt, &out[..to]) {
                return None;
            }
            tally = told.tally;
            if told.over {
                return Some(tally);
            }
            at = told.at;
        }
    }

    // Takes what was read, which may be nothing, and writes the lines of its marks. None where the read or a write failed.
    fn take_bits(
        &self,
        rt: HostRuntime,
        state: State,
        tally: Tally,
        read: Next,
        bits: &[u8],
        out: &mut [u8; BUFFER_BYTES],
    ) -> Option<Turned>
        requires { total_of tally ≤ state.total }
        ensures { IfSome result (MovesOn self.now.edition state tally read bits.now) }
    {
        let taking = reporting::take_front(state, bits);
        let n = taking.n;
        let tally = self.report_all(rt, state, &bits[..n], tally, out)?;
        let state = taking.state;
        let stop = taking.stop;
        let stopped = stop.is_some();
        let next = after_read(read, stopped);
        let over = ended(next)?;
        Some(Turned {
            state,
            tally,
            stop,
            end: bits.len(),
            over,
        })
    }

    // Reads once, and takes what was read.
    fn turn(
        &self,
        rt: HostRuntime,
        state: State,
        tally: Tally,
        buf: &mut [u8; BUFFER_BYTES],
        out: &mut [u8; BUFFER_BYTES],
    ) -> Option<Turned>
        requires { total_of tally ≤ state.total }
        ensures { IfSome result (Goes self.now.edition state tally buf.new) }
    {
        let filled = read_on(rt, buf, 0);
        let end = filled.end;
        let read = filled.next;
        self.take_bits(rt, state, tally, read, &buf[..end], out)
    }

    // Searches the input, read by read, up to its end or to why no more is taken. Where a read fails, the lines up to there are written, and
    // None is answered.
    fn search_input(
        &self,
        rt: HostRuntime,
        start: Opened,
        buf: &mut [u8; BUFFER_BYTES],
        out: &mut [u8; BUFFER_BYTES],
    ) -> Option<Turned>
        requires state_value { start.state ≡ fresh_state }
        requires tally_value { start.tally ≡ nothing_heard }
        ensures { IfSome result (Whole self.now.edition buf.new) }
    {
        let mut state = start.state;
        let mut tally = start.tally;
        for _ in 0..u64::MAX {
            let done = self.turn(rt, state, tally, buf, out)?;
            if done.over {
                return Some(done);
            }
            state = done.state;
            tally = done.tally;
        }
        None
    }
}

// Writes the last line, after why the search stopped.
fn finish(rt: HostRuntime, done: Turned, out: &mut [u8; BUFFER_BYTES])
    ensures { Closing done out.old out.new }
{
    let tally = done.tally;
    let why = done.stop;
    let n = reporting::close(done.state.total, tally, why, out);
    write(rt, &out[..n]);
}

// The search through standard input under an edition, from the heading on. There is no last line where it failed.
fn run(rt: HostRuntime, edition: Edition) {
    let searcher = Searcher {
        table: Syndromes::new(),
        edition,
    };
    let mut buf = [0u8; BUFFER_BYTES];
    let mut out = [0u8; BUFFER_BYTES];
    let opened = reporting::open(&mut out);
    let n = opened.to;
    if write(rt, &out[..n]) {
        if let Some(done) = searcher.search_input(rt, opened, &mut buf, &mut out) {
            finish(rt, done, &mut out);
        }
    }
}

fn main(rt: HostRuntime) {
    match options::read(rt) {
        Ok(
            options::Options {
                strict: false,
                edition,
            },
        ) => run(rt, edition),
        _ => options::tell(rt),
    }
}
