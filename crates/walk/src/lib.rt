// Walks over bytes: what is cut off their front, piece after piece, until it stops or waits for more. What stands here are definitions (specs/) and laws
// (proofs/) that every listing cites, whatever it cuts off; what the functions of a listing answer; and what is left of a buffer is kept.
#![tactic(auto)]

ghost use Rattle.std.specs.Prelude.{◌+◌, ◌-◌, ◌≤◌, length};
ghost use Rattle.walk.specs.Moves.{Moved};

// A text was put, the title or that of an item: what is kept then, and the place after the text.
#[derive(Clone, Copy)]
pub struct After<S> {
    pub state: S,
    pub to: usize,
}

// Some bytes were walked over: what is kept after their items, how many bytes are left, the place after the texts, and how the walk goes on,
// or why it does not.
#[derive(Clone, Copy)]
pub struct Listed<S, E> {
    pub state: S,
    pub left: usize,
    pub to: usize,
    pub ending: E,
}

// The same of a walk that puts nothing.
#[derive(Clone, Copy)]
pub struct Counted<S, E> {
    pub state: S,
    pub left: usize,
    pub ending: E,
}

// Moves the n bytes from `from` on to the front.
pub fn keep(buf: &mut [u8], from: usize, n: usize)
    requires { from + n ≤ length buf.old }
    ensures { Moved buf.old from n buf.new }
{
    buf.copy_within(from..from + n, 0);
}

// Moves what is left of the first `end` bytes to the front: their last `left` bytes.
pub fn keep_last(buf: &mut [u8], end: usize, left: usize)
    requires left_le_end { left ≤ end }
    requires end_in_bounds { end ≤ length buf.old }
    ensures { Moved buf.old (end - left) left buf.new }
{
    keep(buf, end - left, left);
}
