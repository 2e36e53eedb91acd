// Lists the frames of BEESAT-1 on standard input, after each read. It moves bytes and does nothing else: the text is that of `beesat_listing`.
#![tactic(auto)]

ghost use Rattle.std.specs.Prelude.{◌≡◌, ◌*◌, ◌≤◌, length};
ghost use Rattle.beesat_list.specs.Sizes.{buffer_bytes};

use streams::{ended, read_on, send, write};

// A line may be longer than its frame, so what is read at once is an eighth of what is written.
const BUFFER_BYTES: usize = 8192;

const OUTPUT_BYTES: usize = 65536;

// No run has as many turns: each but the last reads a byte. And the frames of so many turns can be counted.
const MOST_TURNS: u64 = 0x2_0000_0000_0000;

// Lists the input, read by read. Where a read or a write fails, the lines up to there are written, and no last line.
fn list(rt: HostRuntime, buf: &mut [u8], out: &mut [u8])
    requires buf_len { length buf.old ≡ buffer_bytes }
    requires buffer_bytes_in_bounds { 8 * buffer_bytes ≤ length out.old }
{
    let opened = beesat_listing::open(out);
    let title = opened.to;
    if !write(rt, &out[..title]) {
        return;
    }
    let mut counts = opened.state;
    let mut kept = 0;
    for turn in 0..MOST_TURNS {
        let filled = read_on(rt, buf, kept);
        let end = filled.end;
        let listed = beesat_listing::list_piece(counts, buf, end, out);
        counts = listed.state;
        kept = listed.left;
        let read = filled.next;
        let Some(over) = ended(send(rt, out, listed.to, read, false)) else {
            return;
        };
        if over {
            let n = beesat_listing::close(counts, kept, out);
            write(rt, &out[..n]);
            return;
        }
    }
}

// (Each program has the buffers that its lines need: three lines, no shorter as one function.)
fn main(rt: HostRuntime) {
    let mut buf = [0u8; BUFFER_BYTES];
    let mut out = [0u8; OUTPUT_BYTES];
    list(rt, &mut buf, &mut out);
}
