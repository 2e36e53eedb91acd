// Writes the records on standard input as lines of text, after each read. It moves bytes and does nothing else: the text is `unpacking`'s.
// Where bytes are left that are no record, it tells on standard error at which byte and why.
#![tactic(auto)]

ghost use Rattle.std.specs.Prelude.{◌*◌, ◌≤◌, length, ⊤};
ghost use Rattle.air.specs.Air.{payload_limit};
ghost use Rattle.record.specs.Records.{record_size};

use record::{Ending, is_over};
use std::io::Write;
use streams::pump::{Taker, Turn, pump};

// A line may be twice as long as its record, so what is read at once is half of what is written.
const BUFFER_BYTES: usize = 32768;

const OUTPUT_BYTES: usize = 65536;

// Tells where and why the rest is no record.
fn tell_cut(rt: HostRuntime, ending: Ending, place: u64) {
    match write!(rt.stderr(), "cut at byte {place}") {
        Ok(()) => {}
        Err(_) => {}
    }
    if is_over(ending) {
        streams::say(rt, ": the length there is over 1,023");
        return;
    }
    streams::say(rt, ": too few bytes for a record");
}

// The records under way: how the last piece ended.
#[derive(Drop)]
struct Unpacker {
    ending: Ending,
}

impl Taker for Unpacker {
    ghost fits = { λ buf out. (record_size payload_limit ≤ buf) × (2 * buf ≤ out) };

    ghost keeps = { λ u left. ⊤ };

    fn take(&mut self, buf: &mut [u8], end: usize, out: &mut [u8]) -> Turn {
        let unpacked = unpacking::unpack_piece(buf, end, out);
        self.ending = unpacked.ending;
        Turn {
            left: unpacked.left,
            to: unpacked.to,
            over: is_over(unpacked.ending),
        }
    }
}

// Unpacks the input, read by read. Where a read or a write fails, the lines up to there are written, and nothing is told of the rest.
fn unpack(rt: HostRuntime, buf: &mut [u8], out: &mut [u8])
    requires payload_limit_in_bounds { record_size payload_limit ≤ length buf.old }
    requires buf_in_bounds { 2 * length buf.old ≤ length out.old }
{
    let mut unpacker = Unpacker {
        ending: Ending::Waits,
    };
    if let Some(rest) = pump(rt, &mut unpacker, buf, out) {
        if unpacking::close(rest.left) {
            tell_cut(rt, unpacker.ending, rest.place);
        }
    }
}

// (Each program has the buffers that its lines need: three lines, no shorter as one function.)
fn main(rt: HostRuntime) {
    let mut buf = [0u8; BUFFER_BYTES];
    let mut out = [0u8; OUTPUT_BYTES];
    unpack(rt, &mut buf, &mut out);
}
