// The search for the marker in bits, one after the other, and windows cut out of what is kept and the piece after it.
ghost use Rattle.std.specs.Prelude.{◌≡◌, true, ◌++◌, ◌+◌, ◌≤◌, ◌<◌, length, get_or, take, drop};
ghost use Rattle.marks.specs.Marked.{marker_bits, window_bits, marker_bit, is_marker};
ghost use Rattle.marks.specs.Scanning.{edge_of, block_size, Clear, Sought};

use crate::{MARKER_BITS, WINDOW_BITS};

// "the 32-bit marker 0x20F3FA13 (its lowest bit sent first)"
const MARKER: u32 = 0x20F3_FA13;

// Bit i of the marker.
fn marker_bit(i: usize) -> u8
    requires { i < marker_bits }
    ensures { result ≡ marker_bit i }
{
    ((MARKER as usize >> i) % 2) as u8
}

// Whether the marker stands at index k.
fn is_marker(bits: &[u8], k: usize) -> bool
    requires { k + marker_bits ≤ length bits.now }
    ensures { result ≡ is_marker (drop k bits.now) }
{
    for i in 0..MARKER_BITS {
        if bits[k + i] != marker_bit(i) {
            return false;
        }
    }
    true
}

// 0 where the marker stands at index k: a first look at twelve of its bits, which are 1, 1, 0, 0, 1, 0, 0, 0, 0, 1, 0, 1.
fn unlike(bits: &[u8], k: usize) -> u8
    requires { k + marker_bits ≤ length bits.now }
    ensures { is_marker (drop k bits.now) ≡ true → result ≡ 0 }
{
    let ones = bits[k] & bits[k + 1] & bits[k + 4] & bits[k + 9] & bits[k + 11];
    let zeros = bits[k + 2] | bits[k + 3] | bits[k + 5] | bits[k + 6];
    (ones ^ 1) | zeros | bits[k + 7] | bits[k + 8] | bits[k + 10]
}

// The indices that are looked at together.
const BLOCK: usize = 64;

// Not 0 only where no marker stands at the indices of the block at k. It has no branch, so that many indices go at once.
fn clear(bits: &[u8], k: usize) -> u8
    requires { k + (block_size + 31) ≤ length bits.now }
    ensures { 0 < result → Clear bits.now k (k + block_size) }
{
    let mut all: u8 = 1;
    for i in 0..BLOCK {
        all &= unlike(bits, k + i);
    }
    all
}

// The lowest index of the marker from `from` on and below `end`; `end` where there is none. Index by index.
fn look(bits: &[u8], from: usize, end: usize) -> usize
    requires from_le_end { from ≤ end }
    requires end_in_bounds { end + 31 ≤ length bits.now }
    ensures { Sought bits.now from end result }
{
    for k in from..end {
        if is_marker(bits, k) {
            return k;
        }
    }
    end
}

// The same, block by block: most blocks are clear. A `while`, since the rest after the last whole block starts at its k.
fn seek(bits: &[u8], from: usize, end: usize) -> usize
    requires from_le_end { from ≤ end }
    requires end_in_bounds { end + 31 ≤ length bits.now }
    ensures { Sought bits.now from end result }
{
    let mut k = from;
    while BLOCK <= end - k {
        let next = k + BLOCK;
        if 0 < clear(bits, k) {
            k = next;
            continue;
        }
        let found = look(bits, k, next);
        if found < next {
            return found;
        }
        k = next;
    }
    look(bits, k, end)
}

// The bits of all windows that start in what is kept.
const EDGE_BITS: usize = WINDOW_BITS + WINDOW_BITS - 1;

// The window at index k.
fn window(bits: &[u8], k: usize) -> [u8; WINDOW_BITS]
    requires { k + window_bits ≤ length bits.now }
    ensures { result ≡ take window_bits (drop k bits.now) }
{
    let mut window = [0u8; WINDOW_BITS];
    window.copy_from_slice(&bits[k..k + WINDOW_BITS]);
    window
}

// What is kept and the piece after it, as one list of bits.
#[derive(Clone, Copy)]
pub struct Joined<'a> {
    pub kept: &'a [u8; WINDOW_BITS],
    pub piece: &'a [u8],
    // Of an array behind a field the prover knows no length by itself.
    ghost whole: { length kept.now ≡ window_bits },
}

impl<'a> Joined<'a> {
    // Element i; 0 past the end.
    fn bit(self, i: usize) -> u8
        ensures { result ≡ get_or (self.entry.kept.now ++ self.entry.piece.now) i 0 }
    {
        if i < WINDOW_BITS {
            return self.kept[i];
        }
        if i - WINDOW_BITS < self.piece.len() {
            return self.piece[i - WINDOW_BITS];
        }
        0
    }

    // What is kept and the bits after it, as far as windows that start there go.
    fn edge(self) -> [u8; EDGE_BITS]
        ensures { result ≡ edge_of (self.entry.kept.now ++ self.entry.piece.now) }
    {
        let mut bits = [0u8; EDGE_BITS];
        for i in 0..EDGE_BITS {
            bits[i] = self.bit(i);
        }
        bits
    }

    // The window at index k.
    pub fn window_at(self, k: usize) -> [u8; WINDOW_BITS]
        requires { k ≤ length self.piece.now }
        ensures { result ≡ take window_bits (drop k (self.entry.kept.now ++ self.entry.piece.now)) }
    {
        if k < WINDOW_BITS {
            let edge = self.edge();
            return window(&edge, k);
        }
        window(self.piece, k - WINDOW_BITS)
    }

    // The lowest index of the marker from `from` on and below `end`, where it starts in what is kept.
    fn in_edge(self, from: usize, end: usize) -> usize
        requires from_lt_end { from < end }
        requires end_le_window_bits { end ≤ window_bits }
        ensures { Sought (self.entry.kept.now ++ self.entry.piece.now) from end result }
    {
        let edge = self.edge();
        seek(&edge, from, end)
    }

    // The same where it starts in the piece, of a window that ends there.
    fn in_piece(self, from: usize) -> usize
        requires window_bits_le_from { window_bits ≤ from }
        requires from_in_bounds { from ≤ length self.piece.now }
        ensures { Sought (self.entry.kept.now ++ self.entry.piece.now) from (length self.entry.piece.now + 1) result }
    {
        let end = self.piece.len() + 1;
        WINDOW_BITS + seek(self.piece, from - WINDOW_BITS, end - WINDOW_BITS)
    }

    // The lowest index of the marker from `from` on, of a window that ends in the piece; one past the piece's length where there is none.
    pub fn next_index(self, from: usize) -> usize
        requires { from ≤ length self.piece.now }
        ensures { Sought (self.entry.kept.now ++ self.entry.piece.now) from (length self.entry.piece.now + 1) result }
    {
        let n = self.piece.len();
        if n < WINDOW_BITS {
            return self.in_edge(from, n + 1);
        }
        if WINDOW_BITS <= from {
            return self.in_piece(from);
        }
        let k = self.in_edge(from, WINDOW_BITS);
        if k < WINDOW_BITS {
            return k;
        }
        self.in_piece(WINDOW_BITS)
    }
}
