// Checksums, byte by byte: CRC13 of a payload, the 16-bit checksum of CCSDS, and CRC5 of a header.
#![tactic(auto)]

ghost use Rattle.std.specs.Prelude.{◌≡◌, ◌++◌, reverse, ◌+◌, ◌*◌, ◌≤◌, ◌<◌, ◌^◌, length};
ghost use Rattle.crc.specs.Crc.{crc_of, byte_bits, bits_of, bits_of_bytes, poly13, start13, crc13_of, poly16, crc16_of};
ghost use Rattle.crc.specs.Around.{around_bytes, added_at};
ghost use Rattle.crc.specs.Crc5.{poly5, counted_flown, counting_bits, crc5_over, crc5_of};
ghost use Rattle.crc.specs.Halves.{header_bits};
ghost use Rattle.crc.specs.Steps.{by_step, steps13, steps16, steps5};

use base::Edition;
pub use header_bits::HeaderBits;

mod header_bits;
mod steps;
mod steps16;
mod steps5;

// CRC13. Its polynomial is in the table of steps.
const START13: u16 = 0x1FFF;

// Below its eight highest bits stand five: 2^5.
const LOW13: u16 = 0x20;

// So many bytes of zero turn each of its states back into itself.
const AROUND_BYTES: usize = 89;

// The 16-bit checksum. Its polynomial is in its table of steps.
const START16: u16 = 0xFFFF;

// Below its eight highest bits stand eight: 2^8.
const LOW16: u16 = 0x100;

// CRC5. Its polynomial is in its table of steps.
const START5: u8 = 0x1F;

// Its five bits stand at the top of a byte, above three: 2^3.
const TOP5: u8 = 8;

// What follows header bit 64.
const FILLING: u64 = 0b1011011;

// The weights of header bits 31 and 35.
const BIT_31: u64 = 0x40_0000_0000;

const BIT_35: u64 = 0x4_0000_0000;

// A byte by a lent copy of a table, in a checksum whose bits below the eight highest count up to LOW: the eight highest and the byte
// choose the step, and the bits below move up.
fn byte_in<const LOW: u16>(steps: &[u16; 256], crc: u16, byte: u8) -> u16
    requires low_some { 0 < LOW }
    requires low_bound { LOW ≤ 2 ^ byte_bits }
    requires crc_bound { crc < LOW * 2 ^ byte_bits }
    ensures { result ≡ by_step LOW steps.now crc byte }
{
    let top = (crc / LOW) as u8;
    steps[(top ^ byte) as usize] ^ (crc % LOW * 0x100)
}

// A byte into CRC13.
fn byte13_in(steps: &[u16; 256], crc: u16, byte: u8) -> u16
    requires steps_value { steps.now ≡ steps13 }
    requires crc_bound { crc < 2 ^ 13 }
    ensures { result ≡ crc_of 13 poly13 crc (bits_of byte_bits byte) }
{
    byte_in::<LOW13>(steps, crc, byte)
}

// Bytes into a state, from the last to the first.
fn down13(steps: &[u16; 256], start: u16, bytes: &[u8]) -> u16
    requires steps_value { steps.now ≡ steps13 }
    requires start_bound { start < 2 ^ 13 }
    ensures { result ≡ crc_of 13 poly13 start (bits_of_bytes (reverse bytes.now)) }
{
    let mut crc = start;
    // Counted by hand: over a reversed range the listing is slower.
    let mut i = bytes.len();
    while 0 < i {
        crc = byte13_in(steps, crc, bytes[i - 1]);
        i -= 1;
    }
    crc
}

// The bytes from a place on, added to a sum of as many.
fn with_bytes(sum: [u8; AROUND_BYTES], bytes: &[u8], at: usize) -> [u8; AROUND_BYTES]
    requires { at + around_bytes ≤ length bytes.now }
    ensures { result ≡ added_at sum at bytes.now }
{
    let mut next = [0u8; AROUND_BYTES];
    for j in 0..AROUND_BYTES {
        next[j] = sum[j] ^ bytes[at + j];
    }
    next
}

// Bytes from the start on, and then a sum. A byte waits for the step of the one before, and a sum of 89 bytes only adds to a state; so
// both go in side by side.
fn down13_beside(steps: &[u16; 256], bytes: &[u8], sum: &[u8]) -> u16
    requires steps_value { steps.now ≡ steps13 }
    requires bytes_len_bound { length bytes.now ≤ around_bytes }
    requires sum_len { length sum.now ≡ around_bytes }
    ensures { result ≡ crc_of 13 poly13 start13 (bits_of_bytes (reverse (sum.now ++ bytes.now))) }
{
    let mut started = START13;
    let mut added: u16 = 0;
    // Counted by hand: over a reversed range the listing is slower.
    let mut i = bytes.len();
    let mut j = AROUND_BYTES;
    while 0 < i {
        started = byte13_in(steps, started, bytes[i - 1]);
        added = byte13_in(steps, added, sum[j - 1]);
        i -= 1;
        j -= 1;
    }
    down13(steps, added, &sum[..j]) ^ started
}

// CRC13 by a lent copy of the table: bytes that count alike are added first, and only their sum and what is left over go through the
// table. That pays from two turns on.
fn crc13_in(steps: &[u16; 256], payload: &[u8]) -> u16
    requires { steps.now ≡ steps13 }
    ensures { result ≡ crc13_of payload.now }
{
    if payload.len() < 2 * AROUND_BYTES {
        return down13(steps, START13, payload);
    }
    let mut sum = [0u8; AROUND_BYTES];
    let mut at = 0;
    // A `while`, no plainer as a `for`: whole blocks are taken, and the rest from `at` on is used after them.
    while AROUND_BYTES <= payload.len() - at {
        let next = with_bytes(sum, payload, at);
        sum = next;
        at += AROUND_BYTES;
    }
    down13_beside(steps, &payload[at..], &sum)
}

// CRC13 of a payload of any length, from its last byte to its first. The constant table is stored anew at each use, so it is copied
// once and lent.
pub fn crc13(payload: &[u8]) -> u16
    ensures { result ≡ crc13_of payload.now }
{
    let copy = steps::whole();
    crc13_in(&copy, payload)
}

// A byte into the 16-bit checksum.
fn byte16_in(steps: &[u16; 256], crc: u16, byte: u8) -> u16
    requires { steps.now ≡ steps16 }
    ensures { result ≡ crc_of 16 poly16 crc (bits_of byte_bits byte) }
{
    byte_in::<LOW16>(steps, crc, byte)
}

// The 16-bit checksum by a lent copy of its table.
fn crc16_in(steps: &[u16; 256], bytes: &[u8]) -> u16
    requires { steps.now ≡ steps16 }
    ensures { result ≡ crc16_of bytes.now }
{
    let mut crc = START16;
    for byte in bytes {
        crc = byte16_in(steps, crc, *byte);
    }
    crc
}

// The 16-bit checksum of any bytes, from the first to the last.
// (Alike `crc13` but for the table and what goes through it: one function of both would be no shorter than this line of theirs.)
pub fn crc16(bytes: &[u8]) -> u16
    ensures { result ≡ crc16_of bytes.now }
{
    let copy = steps16::whole();
    crc16_in(&copy, bytes)
}

// A byte into CRC5, the same way: all of the checksum and the byte choose the step, and no bits are below.
fn byte5_in(steps: &[u8; 256], crc: u8, byte: u8) -> u8
    requires steps_value { steps.now ≡ steps5 }
    requires crc_bound { crc < 2 ^ 5 }
    ensures { result ≡ crc_of 5 poly5 crc (bits_of byte_bits byte) }
{
    steps[((crc * TOP5) ^ byte) as usize]
}

// CRC5 of the header bits that count, from the last byte to the first.
fn crc5_over(bits: HeaderBits) -> u8
    ensures { result ≡ crc5_over (header_bits bits.hi bits.lo) }
{
    let HeaderBits { hi, lo } = bits;
    // Byte 8 is header bit 64 (bit 5 of `lo`) and the filling; bytes 0 to 7 are header bits 0 to 63.
    let last = lo / 0x20 % 2 * 0x80 + FILLING;
    let eight = hi * 0x4_0000_0000 + lo / 0x40;
    let copy = steps5::whole();
    let mut crc = byte5_in(&copy, START5, last as u8);
    for below in 0..8u64 {
        crc = byte5_in(&copy, crc, ((eight >> (8 * below)) % 0x100) as u8);
    }
    crc
}

// The flown rule, which touches only `lo`: header bits 32 to 35 count as zero.
fn counted_flown(lo: u64) -> u64
    ensures { result ≡ counted_flown lo }
{
    lo / BIT_31 * BIT_31 + lo % BIT_35
}

// What counts of `lo` under an edition.
fn counting(edition: Edition, lo: u64) -> u64
    ensures { result ≡ counting_bits edition lo }
{
    match edition {
        Edition::Flown => counted_flown(lo),
        Edition::Corrected => lo,
    }
}

// CRC5 of a header under an edition.
pub fn crc5(edition: Edition, bits: HeaderBits) -> u8
    ensures { result ≡ crc5_of edition (header_bits bits.hi bits.lo) }
{
    crc5_over(HeaderBits {
        hi: bits.hi,
        lo: counting(edition, bits.lo),
    })
}
