// The call signs of the four S-NET satellites as 48 bits, and the bits that an upload may include held against them.
#![tactic(auto)]

ghost use Rattle.std.specs.Prelude.{◌≡◌, get_or, is_some};
ghost use Rattle.sign.specs.CallSigns.{call_sign, sign_bit, sign_of};
ghost use Rattle.sign.specs.Calls.{call_in, looks_at, looked_at, fault_at, first_other, other_at};

use base::Edition;

// The bits of a call sign.
pub const SIGN_BITS: usize = 48;

const CHARACTER_BITS: usize = 8;

// A to D are 0 to 3.
const SATELLITES: u8 = 4;

// Character k of a satellite's call sign, DP0TBB to DP0TBE; 0 where there is none. Table 2 of document 001 prints a letter O for the
// third character; the digit of its Table 1 is right.
fn character(satellite: u8, k: usize) -> u8
    ensures { result ≡ get_or (call_sign satellite) k 0 }
{
    if SATELLITES <= satellite {
        return 0;
    }
    match k {
        0 => b'D',
        1 => b'P',
        2 => b'0',
        3 => b'T',
        4 => b'B',
        5 => b'B' + satellite,
        _ => 0,
    }
}

// Bit n of a satellite's call sign: the characters in reading order, each lowest bit first.
fn sign_bit(satellite: u8, n: usize) -> u8
    ensures { result ≡ sign_bit satellite n }
{
    (character(satellite, n / CHARACTER_BITS) >> (n % CHARACTER_BITS)) % 2
}

// The 48 bits of a satellite's call sign, A to D being 0 to 3. Any other number has no call sign: all bits are 0.
pub fn call_sign(satellite: u8) -> [u8; SIGN_BITS]
    ensures { result ≡ sign_of satellite }
{
    let mut bits = [0u8; SIGN_BITS];
    for n in 0..SIGN_BITS {
        bits[n] = sign_bit(satellite, n);
    }
    bits
}

// Whether call sign bits, which are given or not, are looked at.
pub fn looks_at(edition: Edition, call: Option<&[u8]>) -> bool
    ensures { result ≡ looks_at edition (is_some call.entry) }
{
    match edition {
        Edition::Flown => call.is_some(),
        Edition::Corrected => false,
    }
}

// Where call sign bits that are looked at are none: at their length where that is not 48, or else at the lowest element above 1. 48
// where nothing is wrong, or they are not looked at.
pub fn fault_at(edition: Edition, call: Option<&[u8]>) -> usize
    ensures { result ≡ fault_at (looked_at edition (call_in call.entry)) }
{
    if let Some(bits) = call
        && looks_at(edition, call)
    {
        let n = bits.len();
        if n == SIGN_BITS {
            return air::first_no_bit(bits);
        }
        return n;
    }
    SIGN_BITS
}

// Element n, or 0 past the end.
fn element(call: &[u8], n: usize) -> u8
    ensures { result ≡ get_or call.now n 0 }
{
    if n < call.len() {
        return call[n];
    }
    0
}

// The lowest of 48 elements that is not the call sign's, or 48.
fn first_other(call: &[u8], satellite: u8) -> usize
    ensures { result ≡ first_other call.now satellite }
{
    for n in 0..SIGN_BITS {
        if element(call, n) != sign_bit(satellite, n) {
            return n;
        }
    }
    SIGN_BITS
}

// Where call sign bits that are looked at differ from a satellite's: the lowest place. 48 where they agree, or are not looked at.
pub fn other_at(edition: Edition, call: Option<&[u8]>, satellite: u8) -> usize
    ensures { result ≡ other_at (looked_at edition (call_in call.entry)) satellite }
{
    if let Some(bits) = call
        && looks_at(edition, call)
    {
        return first_other(bits, satellite);
    }
    SIGN_BITS
}
