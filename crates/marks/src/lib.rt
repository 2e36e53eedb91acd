// Marks out of a recording that comes in pieces, one bit a byte: each place where the marker is followed by 210 more bits.
// What the bits say is not looked at here.
#![tactic(auto)]

mod scanning;

ghost use Rattle.std.specs.Prelude.{◌≡◌, ◌++◌, ◌+◌, ◌-◌, ◌≤◌, ◌<◌, length, drop};
ghost use Rattle.marks.specs.Marked.{window_bits, mark_at, marks_from};
ghost use Rattle.marks.specs.Pieces.{longest_recording, fresh_state, verdict_of, taken_of, index_of, no_step, pick, step_of};

use air::AIR_BITS;
use base::{Reason, Written};
use scanning::Joined;

// The marker's bits.
pub const MARKER_BITS: usize = 32;

// A window: the marker and the 210 bits that follow it.
pub const WINDOW_BITS: usize = MARKER_BITS + AIR_BITS;

// The most bits of a recording.
pub const LONGEST_RECORDING: u32 = 4_294_967_295;

// What is kept between pieces: the last 242 bits, zeros before the first, and how many bits were taken.
#[derive(Clone, Copy)]
pub struct State {
    pub bits: [u8; WINDOW_BITS],
    pub total: u32,
}

// A place where the marker is followed by 210 more bits, and these 242 bits.
#[derive(Clone, Copy)]
pub struct Mark {
    pub place: u32,
    pub window: [u8; WINDOW_BITS],
}

// The next mark and the position after its last bit. Where it is none the piece has no more, and `next` is the piece's end.
#[derive(Clone, Copy)]
pub struct Step {
    pub mark: Option<Mark>,
    pub next: usize,
}

// The verdict, and the state after the piece: as it was, where the piece is refused.
#[derive(Clone, Copy)]
pub struct Taken {
    pub verdict: Written,
    pub state: State,
}

// The mark at index k.
fn mark_at(joined: Joined, total: u32, k: usize) -> Mark
    requires k_in_bounds { k ≤ length joined.piece.now }
    requires window_bits_bound { window_bits ≤ total + k }
    requires piece_bound { total + length joined.piece.now ≤ longest_recording }
    ensures { result ≡ mark_at (total + k - window_bits) (drop k (joined.entry.kept.now ++ joined.entry.piece.now)) }
{
    let window = joined.window_at(k);
    Mark {
        place: (total as usize + k - WINDOW_BITS) as u32,
        window,
    }
}

// No more marks in a piece of n bits.
fn none(n: usize) -> Step
    ensures { result ≡ no_step n }
{
    Step {
        mark: None,
        next: n,
    }
}

// The first mark from index `from` on.
fn scan(joined: Joined, total: u32, from: usize) -> Step
    requires from_in_bounds { from ≤ length joined.piece.now }
    requires window_bits_bound { window_bits ≤ total + from }
    requires piece_bound { total + length joined.piece.now ≤ longest_recording }
    ensures { result ≡ pick (length joined.entry.piece.now) total (marks_from (total + from - window_bits) (drop from (joined.entry.kept.now ++ joined.entry.piece.now))) }
{
    let n = joined.piece.len();
    let k = joined.next_index(from);
    if n < k {
        return none(n);
    }
    let mark = mark_at(joined, total, k);
    Step {
        mark: Some(mark),
        next: k,
    }
}

// The index of the window that ends with element `at` of the piece, or of the recording's first.
fn index(total: u32, at: usize) -> usize
    requires { total + at < longest_recording }
    ensures { result ≡ index_of total at }
{
    if (total as usize) + at < WINDOW_BITS - 1 {
        return WINDOW_BITS - total as usize;
    }
    at + 1
}

// The first mark of the piece after a state whose last bit stands at or after `at`.
pub fn find(state: State, piece: &[u8], at: usize) -> Step
    ensures { result ≡ step_of state piece.now at }
{
    let n = piece.len();
    let total = state.total;
    if ((LONGEST_RECORDING - total) as usize) < n {
        return none(n);
    }
    if n <= at {
        return none(n);
    }
    let from = index(total, at);
    if n < from {
        return none(n);
    }
    let kept = state.bits;
    let joined = Joined { kept: &kept, piece };
    scan(joined, total, from)
}

// What is answered to a piece after so many bits.
fn judge(piece: &[u8], total: u32) -> Written
    ensures { result ≡ verdict_of total piece.now }
{
    let n = piece.len();
    let at = air::first_no_bit(piece);
    if at < n {
        return Err(Reason::NoBitInPiece.at(at));
    }
    let left = (LONGEST_RECORDING - total) as usize;
    if left < n {
        return Err(Reason::LongRecording.at(n));
    }
    Ok(())
}

// So many bits and n more.
fn more(total: u32, n: usize) -> u32
    requires { total + n ≤ longest_recording }
    ensures { result ≡ total + n }
{
    total + n as u32
}

// Takes a piece, or refuses it: 19, 37. A refused one leaves the state as it was.
pub fn take(state: State, piece: &[u8]) -> Taken
    ensures { result ≡ taken_of state piece.now }
{
    let total = state.total;
    let kept = state.bits;
    let verdict = judge(piece, total);
    match verdict {
        Err(why) => Taken {
            verdict: Err(why),
            state,
        },
        Ok(()) => {
            let n = piece.len();
            let joined = Joined { kept: &kept, piece };
            let bits = joined.window_at(n);
            Taken {
                verdict: Ok(()),
                state: State {
                    bits,
                    total: more(total, n),
                },
            }
        }
    }
}

// The state before the first piece.
pub fn fresh() -> State
    ensures { result ≡ fresh_state }
{
    State {
        bits: [0u8; WINDOW_BITS],
        total: 0,
    }
}
