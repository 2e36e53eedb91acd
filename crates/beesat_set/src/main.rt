// Writes one field of the frame of BEESAT-1 on standard input: started with the words FIELD and VALUE, it writes the changed frame to standard output, or tells
// the refusal on standard error. It moves bytes and does nothing else: the frame is that of `beesat`, the text that of `beesat_listing`.
#![tactic(auto)]

ghost use Rattle.std.specs.Prelude.{◌<◌, length};

use base::{Reason, Refusal};
use options::number;
use std::io::Print;
use streams::{Next, count_on, fill, write};

// More than a frame.
const BUFFER_BYTES: usize = 4096;

// Tells a refusal. Where that fails, nobody is left to be told.
fn tell(rt: HostRuntime, why: Refusal) {
    let mut out = [0u8; 64];
    let n = beesat_listing::put_refusal(&mut out, 0, why);
    match Print::write_all(&rt.stderr(), &out[..n]) {
        Ok(()) => {}
        Err(_) => {}
    }
}

// Writes one field of a frame of any length.
fn set(rt: HostRuntime, frame: &mut [u8], field: u32, value: u32) {
    match beesat::write_field(frame, field, value) {
        Ok(()) => {
            write(rt, frame);
        }
        Err(why) => {
            tell(rt, why);
        }
    }
}

// The whole input is longer than the buffer, which is longer than a frame.
fn refuse_long(rt: HostRuntime, buf: &mut [u8])
    requires { 0 < length buf.old }
{
    let counted = count_on(rt, buf);
    let next = counted.next;
    match next {
        Next::More => {}
        Next::Done => {
            tell(rt, Reason::Not144Bytes.at(counted.size));
        }
        Next::Failed => {}
    }
}

// Writes one field of the frame that the whole input is.
fn set_input(rt: HostRuntime, field: u32, value: u32) {
    let mut buf = [0u8; BUFFER_BYTES];
    let filled = fill(rt, &mut buf);
    let next = filled.next;
    match next {
        Next::More => {
            refuse_long(rt, &mut buf);
        }
        Next::Done => {
            let end = filled.end;
            set(rt, &mut buf[..end], field, value);
        }
        Next::Failed => {}
    }
}

fn main(rt: HostRuntime) {
    let Some(field) = number(rt, 1) else {
        streams::say(rt, "usage: beesat_set FIELD VALUE");
        return;
    };
    let Some(value) = number(rt, 2) else {
        streams::say(rt, "usage: beesat_set FIELD VALUE");
        return;
    };
    set_input(rt, field, value);
}
