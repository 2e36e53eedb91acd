// The turns of a program: standard input is read on, what was read is taken, and what that gives is written, until there is no more, or no more is wanted.

ghost use Rattle.std.specs.Prelude.{◌≡◌, ℕ, ◌<◌, ◌≤◌, length, IfSome};
ghost use Rattle.streams.specs.Pump.{TakenUp};
ghost use Rattle.streams.specs.declared.Next.TheVariants.{Done};

use crate::{Next, ended, moved_on, read_on, send};

// What was made of a piece: so many of its bytes are left at the buffer's front, and so many bytes of the output are to be written; `over` where no more
// is wanted, whatever follows.
#[derive(Clone, Copy)]
pub struct Turn {
    pub left: usize,
    pub to: usize,
    pub over: bool,
}

// What a program makes of its input, piece by piece.
pub trait Taker {
    // How long the buffer and the output have to be.
    ghost fits: { ℕ → ℕ → Type 0 };

    // What holds after a piece of which so many bytes are left.
    ghost keeps: { Self → ℕ → Type 0 };

    // The first `end` bytes of a buffer are taken: what is left of them goes to its front, and less than the whole buffer where more is wanted.
    fn take(&mut self, buf: &mut [u8], end: usize, out: &mut [u8]) -> Turn
        requires fits { fits (length buf.old) (length out.old) }
        requires end_in_bounds { end ≤ length buf.old }
        ensures taken_up { TakenUp (length buf.new) (length out.new) end result }
        ensures keeps { keeps self.new result.left };
}

// All was read that is wanted, and all was written: so many bytes are left at the buffer's front, which stands at a place in the input.
#[derive(Clone, Copy)]
pub struct Rest {
    pub left: usize,
    pub place: u64,
    // How the last turn went: neither its read nor its write failed, and no more is wanted.
    pub next: Next,
    ghost done: { next ≡ Done },
}

// Reads standard input to its end, or until no more is wanted. None where a read or a write failed, which was told: no run has 2^64 - 1
// turns, since each but the last reads a byte.
pub fn pump<T: Taker>(
    rt: HostRuntime,
    taker: &mut T,
    buf: &mut [u8],
    out: &mut [u8],
) -> Option<Rest>
    requires fits { T.fits (length buf.old) (length out.old) }
    requires buf_nonzero { 0 < length buf.old }
    ensures { IfSome result (λ r. (r.left ≤ length buf.new) × T.keeps taker.new r.left) }
{
    let mut left = 0;
    let mut place = 0;
    for _ in 0..u64::MAX {
        let filled = read_on(rt, buf, left);
        let turn = taker.take(buf, filled.end, out);
        place = moved_on(place, filled.end, turn.left);
        left = turn.left;
        let next = send(rt, out, turn.to, filled.next, turn.over);
        if ended(next)? {
            return Some(Rest { left, place, next });
        }
    }
    None
}
