// A test program: the marks of a short recording on standard input, found whole, cut in two at every place, and bit by bit; and how many of
// their headers are accepted, alone and with the call sign of each satellite.
#![tactic(auto)]

ghost use Rattle.std.specs.Prelude.{◌≡◌};
ghost use Rattle.marks.specs.Pieces.{step_of, taken_of};

use base::Edition;
use header::Read;
use marks::{MARKER_BITS, Mark, State, Step, Taken, WINDOW_BITS};

// The most marks that are compared.
const MOST: usize = 64;

// Room for the recording.
const ROOM: usize = 65536;

// What `marks::find` answers, by a reader of the piece that is moved to the position.
fn found(state: State, piece: &[u8], at: usize) -> Step
    ensures { result ≡ step_of state piece.now at }
{
    mark_reader::next(mark_reader::moved(mark_reader::new(piece), at), state)
}

// What `marks::take` answers, by a reader of the piece that is closed.
fn closed(state: State, piece: &[u8]) -> Taken
    ensures { result ≡ taken_of state piece.now }
{
    mark_reader::close(mark_reader::new(piece), state)
}

// The places of the marks of a piece after a state; how many there are.
fn collect(state: State, piece: &[u8], places: &mut [u32; MOST]) -> usize {
    let mut at = 0;
    for n in 0..MOST {
        let step = found(state, piece, at);
        let Some(mark) = step.mark else {
            return n;
        };
        places[n] = mark.place;
        at = step.next;
    }
    MOST
}

// The marks of a piece after a state, held against the places from the n-th on; how many have agreed. None where one is another.
fn agree(state: State, piece: &[u8], places: &[u32; MOST], start: usize) -> Option<usize> {
    let mut at = 0;
    for n in start..MOST {
        let step = marks::find(state, piece, at);
        let Some(mark) = step.mark else {
            return Some(n);
        };
        if mark.place != places[n] {
            return None;
        }
        at = step.next;
    }
    Some(MOST)
}

// The same of the bits cut in two at k.
fn cut_at(bits: &[u8], k: usize, places: &[u32; MOST]) -> Option<usize> {
    let (front, rest) = bits.split_at_checked(k)?;
    let state = marks::fresh();
    let n = agree(state, front, places, 0)?;
    let taken = marks::take(state, front);
    let after = taken.state;
    agree(after, rest, places, n)
}

// How many cuts give as many marks, in the same places.
fn all_cuts(bits: &[u8], places: &[u32; MOST], marks: usize) -> usize {
    (0..bits.len())
        .filter(|k| cut_at(bits, *k, places) == Some(marks))
        .count()
}

// The same bit by bit, each a piece.
fn bit_by_bit(bits: &[u8], places: &[u32; MOST]) -> Option<usize> {
    let mut state = marks::fresh();
    let mut n = 0;
    for bit in bits.chunks(1) {
        n = agree(state, bit, places, n)?;
        let taken = closed(state, bit);
        state = taken.state;
    }
    Some(n)
}

// What is read of the header in a window with the call sign of a satellite.
fn read_signed(window: [u8; WINDOW_BITS], satellite: u8) -> Read {
    let call = sign::call_sign(satellite);
    let rules = header::usual(Edition::Flown);
    header_reader::read_header_signed(rules, &call, &window[MARKER_BITS..])
}

// What is read of a mark's header: alone, or with the call sign of a satellite.
fn read(mark: Mark, satellite: Option<u8>) -> Read {
    match satellite {
        None => search::read_mark(Edition::Flown, mark),
        Some(satellite) => {
            let window = mark.window;
            read_signed(window, satellite)
        }
    }
}

// How many headers of the bits are accepted so.
fn accepted(bits: &[u8], satellite: Option<u8>) -> u64 {
    let mut good: u64 = 0;
    let mut at = 0;
    for _ in 0..MOST {
        let step = marks::find(marks::fresh(), bits, at);
        let Some(mark) = step.mark else {
            return good;
        };
        let header = read(mark, satellite);
        if header.answer.is_ok() {
            good += 1;
        }
        at = step.next;
    }
    good
}

// Tells a number on a line. A write that fails is told on standard error.
fn told(rt: HostRuntime, name: &str, number: u64) {
    match println!(rt; "{name} {number}") {
        Ok(()) => {}
        Err(why) => streams::tell(rt, "write", why),
    }
}

fn main(rt: HostRuntime) {
    let mut buf = [0u8; ROOM];
    let n = streams::fill(rt, &mut buf).end;
    let bits = &buf[..n];
    let mut places = [0u32; MOST];
    let marks = collect(marks::fresh(), bits, &mut places);
    told(rt, "bits", n as u64);
    told(rt, "marks", marks as u64);
    told(
        rt,
        "cuts with the same marks",
        all_cuts(bits, &places, marks) as u64,
    );
    // Where a mark was another, one more than the most is told.
    let agreed = bit_by_bit(bits, &places).unwrap_or(MOST + 1);
    told(rt, "marks bit by bit", agreed as u64);
    told(rt, "accepted", accepted(bits, None));
    told(
        rt,
        "accepted with the call sign of A",
        accepted(bits, Some(0)),
    );
    told(
        rt,
        "accepted with the call sign of B",
        accepted(bits, Some(1)),
    );
    told(
        rt,
        "accepted with the call sign of C",
        accepted(bits, Some(2)),
    );
    told(
        rt,
        "accepted with the call sign of D",
        accepted(bits, Some(3)),
    );
}
