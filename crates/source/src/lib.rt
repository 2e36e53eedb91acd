// One source's record, of two lanes, and the counts of refusals: what a sheet is made of, whatever its edition.
#![tactic(auto)]

ghost use Rattle.std.specs.Prelude.{◌≡◌, ◌*◌, ◌≤◌};
ghost use Rattle.source.specs.Records.{count_limit, add_of, missed_of, tally_of, next_of};
ghost use Rattle.source.specs.Lanes.{lanes, silent, hear_of, frames_of, repaired_of, summed_of};
ghost use Rattle.source.specs.Counts.{counted_at, refusal_counts, slot_of, counts_after, total_in};

use base::Reason;
use header::Header;

// The refusals that are counted, in the order of their counts.
pub const REFUSAL_COUNTS: usize = 12;

const COUNTED: [u8; REFUSAL_COUNTS] = [
    Reason::Not210Long as u8,
    Reason::NoBit as u8,
    Reason::BeyondRepair as u8,
    Reason::Crc5Differs as u8,
    Reason::UnknownSource as u8,
    Reason::UnknownCoding as u8,
    Reason::OtherLength as u8,
    Reason::Crc13Differs as u8,
    Reason::LimitAbove42 as u8,
    Reason::FlipsAboveLimit as u8,
    Reason::NoCallSign as u8,
    Reason::OtherCallSign as u8,
];

// Frame counters run from 0 to 15.
const COUNTERS: u8 = 16;

// What is counted of one lane. Where it was never heard, `last` says nothing. (A flag and a number, no Option: a caller may make up a lane
// with any number beside the flag, as the stored vectors do, and `next` keeps what it says of it.)
#[derive(Clone, Copy)]
pub struct Lane {
    pub frames: u32,
    pub repaired: u32,
    pub missed: u32,
    pub repeats: u32,
    pub heard: bool,
    pub last: u8,
}

// The Caller bit of a caller's frame; that of a responder's is 0.
const CALLER: u8 = 1;

// A source's two lanes, by the Caller bit: what it sent as caller, and what it sent as responder.
#[derive(Clone, Copy)]
pub struct Source {
    pub caller: Lane,
    pub responder: Lane,
}

// A source's numbers for display: its lanes, and over both the frames and the repaired bits.
#[derive(Clone, Copy)]
pub struct Display {
    pub caller: Lane,
    pub responder: Lane,
    pub frames: u64,
    pub repaired: u64,
}

// A source that was never heard.
pub fn never_heard() -> Source
    ensures { result ≡ silent }
{
    let lane = Lane {
        frames: 0,
        repaired: 0,
        missed: 0,
        repeats: 0,
        heard: false,
        last: 0,
    };
    Source {
        caller: lane,
        responder: lane,
    }
}

// A count after `more`: the sum, or the most that a count can be.
fn add(count: u32, more: u32) -> u32
    ensures { result ≡ add_of count more }
{
    count.saturating_add(more)
}

// The frames between two counters. Both may be above 15: 256 is a multiple of 16, so a difference that wraps is right mod 16.
fn missed(last: u8, new: u8) -> u32
    ensures { result ≡ missed_of last new }
{
    let between = new.wrapping_sub(last).wrapping_sub(1);
    (between % COUNTERS) as u32
}

// A lane after a frame that adds so much to its repeats and to its missed frames.
fn tally(lane: Lane, fr_cnt_tx: u8, flips: u32, repeats: u32, missed: u32) -> Lane
    ensures { result ≡ tally_of lane fr_cnt_tx flips repeats missed }
{
    Lane {
        frames: add(lane.frames, 1),
        repaired: add(lane.repaired, flips),
        missed: add(lane.missed, missed),
        repeats: add(lane.repeats, repeats),
        heard: true,
        last: fr_cnt_tx,
    }
}

// A lane after an accepted frame of it.
pub fn next(lane: Lane, fr_cnt_tx: u8, flips: u32) -> Lane
    ensures { result ≡ next_of lane fr_cnt_tx flips }
{
    if lane.heard {
        let last = lane.last;
        if fr_cnt_tx == last {
            return tally(lane, fr_cnt_tx, flips, 1, 0);
        }
        return tally(lane, fr_cnt_tx, flips, 0, missed(last, fr_cnt_tx));
    }
    tally(lane, fr_cnt_tx, flips, 0, 0)
}

// A source's record after an accepted frame: the other lane stays as it is.
pub fn hear(source: Source, header: Header, flips: u32) -> Source
    ensures { result ≡ hear_of source header flips }
{
    let called = source.caller;
    let responded = source.responder;
    if header.fields.caller == CALLER {
        let after = next(called, header.fields.fr_cnt_tx, flips);
        return Source {
            caller: after,
            responder: responded,
        };
    }
    let after = next(responded, header.fields.fr_cnt_tx, flips);
    Source {
        caller: called,
        responder: after,
    }
}

// Frames accepted in both lanes of a source.
pub fn frames(source: Source) -> u64
    ensures value { result ≡ frames_of source }
    ensures upper_bound { result ≤ lanes * count_limit }
{
    source.caller.frames as u64 + source.responder.frames as u64
}

// Bits repaired in both lanes of a source.
fn repaired(source: Source) -> u64
    ensures { result ≡ repaired_of source }
{
    source.caller.repaired as u64 + source.responder.repaired as u64
}

// A source's record with its sums.
pub fn summed(source: Source) -> Display
    ensures { result ≡ summed_of source }
{
    let caller = source.caller;
    let responder = source.responder;
    Display {
        caller,
        responder,
        frames: frames(source),
        repaired: repaired(source),
    }
}

// The number that count k is of; 0 where there is no such count.
pub fn counted_number(k: usize) -> u8
    ensures { result ≡ counted_at k }
{
    if REFUSAL_COUNTS <= k {
        return 0;
    }
    COUNTED[k]
}

// The place of a number's count, or REFUSAL_COUNTS.
fn slot(number: u8) -> usize
    ensures { result ≡ slot_of number }
{
    COUNTED
        .iter()
        .position(|counted| number == *counted)
        .unwrap_or(REFUSAL_COUNTS)
}

// The counts of refusals after a frame that was refused with a number. Where the number is not counted, they stay as they are.
pub fn refuse(counts: [u32; REFUSAL_COUNTS], number: u8) -> [u32; REFUSAL_COUNTS]
    ensures { result ≡ counts_after counts number }
{
    let k = slot(number);
    if REFUSAL_COUNTS <= k {
        return counts;
    }
    let mut after = counts;
    after[k] = add(counts[k], 1);
    after
}

// The sum of the counts of refusals.
pub fn total(counts: [u32; REFUSAL_COUNTS]) -> u64
    ensures value { result ≡ total_in counts }
    ensures upper_bound { result ≤ refusal_counts * count_limit }
{
    let mut sum: u64 = 0;
    for count in &counts {
        sum += *count as u64;
    }
    sum
}
