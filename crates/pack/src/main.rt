// Writes the lines of text on standard input as records, after each read. It moves bytes and does nothing else: the records are
// `packing`'s. Where a line is wrong it stops, and tells on standard error which line, at which column, why, and what to write.
#![tactic(auto)]

ghost use Rattle.std.specs.Prelude.{◌≡◌, ◌*◌, ◌<◌, ◌≤◌, false, length};
ghost use Rattle.packing.specs.Lines.{longest_line};
ghost use Rattle.packing.specs.Packing.{wrong_of};

use packing::{Fault, Judged};
use std::io::Write;
use streams::pump::{Taker, Turn, pump};
use streams::write;

// A record is less than twice as long as its line, so what is read at once is half of what is written.
const BUFFER_BYTES: usize = 32768;

const OUTPUT_BYTES: usize = 65536;

// What is wrong, and what to write.
fn tell_fault(rt: HostRuntime, fault: Fault) {
    match fault {
        Fault::NoHeader => streams::say(
            rt,
            ": the header ends here and is not 210 bits; write 210 digits 0 or 1, or 420 hex digits, and a space before the payload",
        ),
        Fault::NoBit => streams::say(rt, ": no bit; write 0 or 1"),
        Fault::NoHexDigit => streams::say(rt, ": no hex digit; write 0 to 9 or a to f"),
        Fault::ManyBytes => streams::say(
            rt,
            ": the payload has more than 1,023 bytes; write at most 2,046 hex digits",
        ),
        Fault::OddDigits => streams::say(
            rt,
            ": the payload ends in the middle of a byte; write two hex digits for each",
        ),
        Fault::LongLine => streams::say(
            rt,
            ": the line is longer than 4,095 letters, and no record is; end it with a line feed",
        ),
    }
}

// Tells which line is wrong, at which column, and why.
fn tell(rt: HostRuntime, line: u64, fault: Fault, column: usize) {
    match write!(rt.stderr(), "line {line} column {column}") {
        Ok(()) => {}
        Err(_) => {}
    }
    tell_fault(rt, fault);
}

// Tells what is wrong with a line, if anything is.
fn tell_wrong(rt: HostRuntime, line: u64, judged: Judged) {
    if let Err(wrong) = judged {
        tell(rt, line, wrong.fault, wrong.column);
    }
}

// The lines under way: how many came before the piece, and whether one is wrong.
#[derive(Drop)]
struct Packer {
    lines: u64,
    judged: Judged,
}

impl Taker for Packer {
    ghost fits = { λ buf out. (longest_line < buf) × (2 * buf ≤ out) };

    ghost keeps = { λ p left. wrong_of p.judged ≡ false → left ≤ longest_line };

    fn take(&mut self, buf: &mut [u8], end: usize, out: &mut [u8]) -> Turn {
        let packed = packing::pack_piece(self.lines, buf, end, out);
        self.lines = packed.state;
        self.judged = packed.ending;
        Turn {
            left: packed.left,
            to: packed.to,
            over: packed.ending.is_err(),
        }
    }
}

// Packs the input, read by read. Where a read or a write fails, the records up to there are written, and nothing is told.
fn pack(rt: HostRuntime, buf: &mut [u8], out: &mut [u8])
    requires longest_line_in_bounds { longest_line < length buf.old }
    requires buf_in_bounds { 2 * length buf.old ≤ length out.old }
{
    let mut packer = Packer {
        lines: 0,
        judged: packing::open(),
    };
    if let Some(rest) = pump(rt, &mut packer, buf, out) {
        let last = packing::close(packer.lines, packer.judged, &buf[..rest.left], out);
        let wrong = last.judged;
        if write(rt, &out[..last.to]) {
            tell_wrong(rt, last.line, wrong);
        }
    }
}

// (Each program has the buffers that its lines need: three lines, no shorter as one function.)
fn main(rt: HostRuntime) {
    let mut buf = [0u8; BUFFER_BYTES];
    let mut out = [0u8; OUTPUT_BYTES];
    pack(rt, &mut buf, &mut out);
}
