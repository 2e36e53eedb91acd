// Standard input read on into a buffer, and standard output written: what programs share. A failure is told on standard error.
#![tactic(auto)]

ghost use Rattle.std.specs.Prelude.{◌≡◌, ◌+◌, ◌-◌, ◌%◌, ◌^◌, ◌<◌, ◌≤◌, false, length};
ghost use Rattle.streams.specs.declared.Next.TheVariants.{More};
ghost use Rattle.streams.specs.Turns.{ReadOn, read_on, onward_of, done_of, ended_of, TurnsLeft};

pub mod pump;

use std::io;
use std::io::{Print, Read, Write};

// How to go on.
#[derive(Clone, Copy, PartialEq, Eq)]
pub enum Next {
    // There is more to read.
    More,
    // The input has ended.
    Done,
    // A read or a write failed.
    Failed,
}

// So many bytes are in the buffer.
#[derive(Clone, Copy)]
pub struct Filled {
    pub end: usize,
    pub next: Next,
}

// Says something on standard error. Where that fails too, nobody is left to be told.
pub fn say(rt: HostRuntime, what: &str) {
    match writeln!(rt.stderr(), "{what}") {
        Ok(()) => {}
        Err(_) => {}
    }
}

// Tells on standard error what failed, and why. Where that fails too, nobody is left to be told.
pub fn tell(rt: HostRuntime, what: &str, why: io::Error) {
    match writeln!(rt.stderr(), "{what}: {why}") {
        Ok(()) => {}
        Err(_) => {}
    }
}

// Reads once, after the bytes that were kept: what is still coming is seen as far as it has come.
pub fn read_on(rt: HostRuntime, buf: &mut [u8], kept: usize) -> Filled
    requires { kept < length buf.old }
    ensures { ReadOn buf.old kept result }
{
    let part = &mut buf[kept..];
    let got = rt.stdin().read(part);
    match got {
        Ok(n) => {
            if n == 0 {
                return Filled {
                    end: kept,
                    next: Next::Done,
                };
            }
            let end = kept + n;
            Filled {
                end,
                next: Next::More,
            }
        }
        Err(why) => {
            tell(rt, "read", why);
            Filled {
                end: kept,
                next: Next::Failed,
            }
        }
    }
}

// Reads until the buffer is full or the input ends.
pub fn fill(rt: HostRuntime, buf: &mut [u8]) -> Filled
    ensures { result.end ≤ length buf.new }
{
    let mut end = 0;
    // A `while`: each read says how far it came.
    while end < buf.len() {
        let filled = read_on(rt, buf, end);
        if filled.next != Next::More {
            return filled;
        }
        end = filled.end;
    }
    Filled {
        end,
        next: Next::More,
    }
}

// The length of a whole input, and how the last read went.
#[derive(Clone, Copy)]
pub struct Counted {
    pub size: usize,
    pub next: Next,
}

// Reads an input that has filled the buffer to its end, and counts all of it: never less than the buffer.
pub fn count_on(rt: HostRuntime, buf: &mut [u8]) -> Counted
    requires { 0 < length buf.old }
    ensures { length buf.old ≤ result.size }
{
    let mut size = buf.len();
    for _ in 0..u64::MAX {
        let filled = read_on(rt, buf, 0);
        let next = filled.next;
        if next != Next::More {
            return Counted { size, next };
        }
        size = size.saturating_add(filled.end);
    }
    Counted {
        size,
        next: Next::More,
    }
}

// Writes all bytes, and answers whether that went well.
pub fn write(rt: HostRuntime, bytes: &[u8]) -> bool {
    match Print::write_all(&rt, bytes) {
        Ok(()) => true,
        Err(why) => {
            tell(rt, "write", why);
            false
        }
    }
}

// How to go on after a read, where what came before may be all that is wanted. A failed read stays one.
pub fn after_read(read: Next, over: bool) -> Next
    ensures { result ≡ read_on read over }
{
    match read {
        Next::More if over => Next::Done,
        _ => read,
    }
}

// How to go on after a read and the write that followed it.
pub fn after_write(read: Next, wrote: bool) -> Next
    ensures { result ≡ onward_of read wrote }
{
    if wrote {
        return read;
    }
    Next::Failed
}

// Writes the first `to` bytes, and answers how to go on, after the read before that, where what came may be all that is wanted.
pub fn send(rt: HostRuntime, out: &[u8], to: usize, read: Next, over: bool) -> Next
    requires { to ≤ length out.now }
    ensures { result ≡ More → over ≡ false }
{
    let wrote = write(rt, &out[..to]);
    after_write(after_read(read, over), wrote)
}

// Whether all that is wanted has come and was written.
pub fn is_done(next: Next) -> bool
    ensures { result ≡ done_of next }
{
    next == Next::Done
}

// Whether a program's turns have ended, after one that says how to go on: not while there is more to read. None where a read or a write failed.
pub fn ended(next: Next) -> Option<bool>
    ensures { result ≡ ended_of next }
{
    match next {
        Next::More | Next::Done => Some(is_done(next)),
        Next::Failed => None,
    }
}

// The turns that are left: none, unless there is more to read.
pub fn turns_left(turns: u64, next: Next) -> u64
    requires { 0 < turns }
    ensures { TurnsLeft turns next result }
{
    match next {
        Next::More => turns - 1,
        Next::Done | Next::Failed => 0,
    }
}

// The place in an input of a buffer's front, where `left` of the `end` bytes in the buffer are left. A place past 2^64, which no input
// reaches, would wrap.
pub fn moved_on(front: u64, end: usize, left: usize) -> u64
    requires { left ≤ end }
    ensures { result ≡ (front + (end - left)) % 2 ^ 64 }
{
    let passed = end - left;
    front.wrapping_add(passed as u64)
}
