// One coded word: the 32 valid words, the plain search for the nearest of them, and repair by the syndrome table.
#![tactic(auto)]

ghost use Rattle.std.specs.Prelude.{◌≡◌, ◌<◌};
ghost use Rattle.word.specs.Words.{word_limit, valid_count, combined, multiple_of, encode_of};
ghost use Rattle.word.specs.Repairs.{remainder_of, repair_of};

pub mod table;

use table::{MARK, Syndromes};

// Numbers below it are words.
pub const WORD_LIMIT: u16 = 32768;

// The lowest of the five data bits of a word.
pub const DATA_BIT: u16 = 1024;

// The valid words.
const VALID_COUNT: u16 = 32;

// The most places in which a word may differ from a valid one and still be repaired.
pub const RADIUS: u32 = 3;

// What repair makes of a number: the valid word within three flips of it, and the flips: bit i is set where position i was flipped.
#[derive(Clone, Copy)]
pub struct Repaired {
    pub word: u16,
    pub flips: u16,
}

// The sum of those of five words that the five lowest bits of n name.
fn combined(n: u16, a: u16, b: u16, c: u16, d: u16, e: u16) -> u16
    ensures { result ≡ combined n a b c d e }
{
    (n % 2 * a) ^ (n / 2 % 2 * b) ^ (n / 4 % 2 * c) ^ (n / 8 % 2 * d) ^ (n / 16 % 2 * e)
}

// The multiple of 0x537 with the multiplier q: 0x537 times x^k for each coefficient k of q, of which five count.
fn multiple(q: u16) -> u16
    ensures { result ≡ multiple_of q }
{
    combined(q, 0x537, 0xA6E, 0x14DC, 0x29B8, 0x5370)
}

// The valid word of five data bits: the sum of the valid words of the single bits.
pub fn encode(d: u16) -> u16
    requires { d < valid_count }
    ensures { result ≡ encode_of d }
{
    combined(d, 0x537, 0xA6E, 0x11EB, 0x23D6, 0x429B)
}

// The plain search: the 32 valid words one after the other, up to the first within three.
pub fn search(w: u16) -> Option<Repaired>
    ensures { result ≡ repair_of w }
{
    if WORD_LIMIT <= w {
        return None;
    }
    for q in 0..VALID_COUNT {
        let v = multiple(q);
        let flips = w ^ v;
        if u16::count_ones(flips) <= RADIUS {
            return Some(Repaired { word: v, flips });
        }
    }
    None
}

// The remainder of a word modulo 0x537, which names its row in the table.
fn remainder(w: u16) -> u16
    requires { w < word_limit }
    ensures { result ≡ remainder_of w }
{
    w ^ encode(w / DATA_BIT)
}

// Repair by a lent table: what a caller with many words makes once.
pub fn repair_in(table: &Syndromes, w: u16) -> Option<Repaired>
    ensures { result ≡ repair_of w }
{
    if WORD_LIMIT <= w {
        return None;
    }
    let flips = table.row(remainder(w));
    if flips == MARK {
        return None;
    }
    Some(Repaired {
        word: w ^ flips,
        flips,
    })
}

// Repair of one word.
pub fn repair(w: u16) -> Option<Repaired>
    ensures { result ≡ repair_of w }
{
    let table = Syndromes::new();
    repair_in(&table, w)
}
