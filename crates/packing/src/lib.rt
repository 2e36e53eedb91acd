// Lines of text to records, the way back of `unpacking`: every line of a piece is packed, up to the first that is wrong.
#![tactic(auto)]

ghost use Rattle.std.specs.Prelude.{◌≡◌, ◌+◌, ◌*◌, ◌<◌, ◌≤◌, false, length};
ghost use Rattle.air.specs.Air.{payload_limit};
ghost use Rattle.base.specs.Lists.{place_in};
ghost use Rattle.text.specs.Text.{Put};
ghost use Rattle.record.specs.Records.{length_of};
ghost use Rattle.packing.specs.Digits.{digit_value, digits_ahead, AreDigits, bits_in, bytes_in};
ghost use Rattle.packing.specs.Lines.{longest_line, fine, header_judged, payload_judged, judged_of, header_bytes, record_of, end_in, passed_over, digits_from};
ghost use Rattle.walk.specs.Scans.{Scanned, Turned};
ghost use Rattle.packing.specs.Packing.{front_of, wrong_of, pack_walk, judged_ends};
ghost use Rattle.packing.specs.Pieces.{opened};
ghost use Rattle.packing.specs.Promises.{PacksParts, Packs, Closes};

use air::{AIR_BITS, LONGEST_PAYLOAD};
use walk::Listed;

// The most letters of a line before its line feed, also of one that is passed over. The longest line of a record has 2,467.
pub const LONGEST_LINE: usize = 4095;

// Two hex digits for each byte of a header, and of the longest payload.
const HEADER_DIGITS: usize = 2 * AIR_BITS;

const MOST_DIGITS: usize = 2 * LONGEST_PAYLOAD;

// What digit_value answers for a letter that is no digit: it is above every digit, so that one test tells both from the digits of a base.
const NO_DIGIT: u8 = 16;

// What is wrong with a line.
#[derive(Clone, Copy)]
pub enum Fault {
    // What stands before the first space is neither 210 bits nor 420 hex digits long.
    NoHeader,
    // A letter of the header is no bit.
    NoBit,
    // A letter of the header or of the payload is no hex digit.
    NoHexDigit,
    // The payload has more than 1,023 bytes.
    ManyBytes,
    // The payload ends in the middle of a byte.
    OddDigits,
    // The line is longer than any line of a record.
    LongLine,
}

// What is wrong with a line, and at which column.
#[derive(Clone, Copy)]
pub struct Wrong {
    pub fault: Fault,
    pub column: usize,
}

// Whether a line is well, or what is wrong with it.
pub type Judged = Result<(), Wrong>;

// A line was packed: whether it is well, and the place after its record.
#[derive(Clone, Copy)]
pub struct Packed {
    pub judged: Judged,
    pub to: usize,
}

// The input has ended, or a line is wrong: the place after the last record, and the number of the line that was judged.
#[derive(Clone, Copy)]
pub struct Ended {
    pub to: usize,
    pub line: u64,
    pub judged: Judged,
}

// What stands at the front of some bytes.
#[derive(Clone, Copy)]
pub enum Front {
    // A line of so many letters, and its line feed.
    Line { end: usize },
    // More letters than a line has.
    TooLong,
    // A line that has not ended yet.
    Unended,
}

// What a letter is worth as a digit of a base up to 16.
fn digit_value(letter: u8) -> u8
    ensures { result ≡ digit_value letter }
{
    match letter {
        b'0'..=b'9' => letter - b'0',
        b'A'..=b'F' => 10 + (letter - b'A'),
        b'a'..=b'f' => 10 + (letter - b'a'),
        _ => NO_DIGIT,
    }
}

// The place of the first such letter; the length where there is none.
fn find(letters: &[u8], mark: u8) -> usize
    ensures { result ≡ place_in letters.now mark }
{
    for i in 0..letters.len() {
        if letters[i] == mark {
            return i;
        }
    }
    letters.len()
}

// How many digits of a base stand in front.
fn digits_ahead(letters: &[u8], base: u8) -> usize
    ensures value { result ≡ digits_ahead base letters.now }
    ensures upper_bound { result ≤ length letters.now }
{
    for i in 0..letters.len() {
        if base <= digit_value(letters[i]) {
            return i;
        }
    }
    letters.len()
}

// Puts a byte for each digit.
fn put_bits(out: &mut [u8], at: usize, letters: &[u8]) -> usize
    requires { at + length letters.now ≤ length out.old }
    ensures put { Put out.old at (bits_in letters.now) out.new result }
    ensures upper_bound { result ≤ at + length letters.now }
{
    let mut to = at;
    for i in 0..letters.len() {
        out[to] = digit_value(letters[i]);
        to += 1;
    }
    to
}

// The byte of two hex digits.
fn byte_of(high: u8, low: u8) -> u8
    requires { (digit_value high < 16) × (digit_value low < 16) }
    ensures { result ≡ digit_value high * 16 + digit_value low }
{
    digit_value(high) * 16 + digit_value(low)
}

// Puts a byte for every two digits.
fn put_hex(out: &mut [u8], at: usize, letters: &[u8]) -> usize
    requires are_digits { AreDigits 16 letters.now }
    requires letters_in_bounds { at + length letters.now ≤ length out.old }
    ensures put { Put out.old at (bytes_in letters.now) out.new result }
    ensures upper_bound { result ≤ at + length letters.now }
{
    let mut to = at;
    for k in 0..letters.len() / 2 {
        out[to] = byte_of(letters[2 * k], letters[2 * k + 1]);
        to += 1;
    }
    to
}

// Whether a header is 210 bits or 420 hex digits.
fn judge_header(header: &[u8]) -> Judged
    requires { length header.now ≤ longest_line }
    ensures { result ≡ header_judged header.now }
{
    let n = header.len();
    if n == AIR_BITS {
        let bits = digits_ahead(header, 2);
        if bits < n {
            return Err(Wrong {
                fault: Fault::NoBit,
                column: bits + 1,
            });
        }
        return Ok(());
    }
    if n == HEADER_DIGITS {
        let digits = digits_ahead(header, 16);
        if digits < n {
            return Err(Wrong {
                fault: Fault::NoHexDigit,
                column: digits + 1,
            });
        }
        return Ok(());
    }
    Err(Wrong {
        fault: Fault::NoHeader,
        column: n + 1,
    })
}

// Whether a payload, whose first digit stands at a column, is whole bytes in hex.
fn judge_payload(digits: &[u8], column: usize) -> Judged
    requires { column ≤ longest_line + 2 }
    ensures { result ≡ payload_judged column digits.now }
{
    if MOST_DIGITS < digits.len() {
        return Err(Wrong {
            fault: Fault::ManyBytes,
            column: column + MOST_DIGITS,
        });
    }
    let n = digits_ahead(digits, 16);
    if n < digits.len() {
        return Err(Wrong {
            fault: Fault::NoHexDigit,
            column: column + n,
        });
    }
    if n % 2 == 1 {
        return Err(Wrong {
            fault: Fault::OddDigits,
            column: column + n,
        });
    }
    Ok(())
}

// Whether the two parts of a line are those of a record.
fn judge(header: &[u8], digits: &[u8]) -> Judged
    requires { length header.now ≤ longest_line }
    ensures { result ≡ judged_of header.now digits.now }
{
    judge_header(header)?;
    judge_payload(digits, header.len() + 2)
}

// Puts a record's length, the high byte first.
fn put_size(out: &mut [u8], at: usize, n: usize) -> usize
    requires n_le_payload_limit { n ≤ payload_limit }
    requires at_in_bounds { at + 2 ≤ length out.old }
    ensures put { Put out.old at (length_of n) out.new result }
    ensures upper_bound { result ≤ at + 2 }
{
    let size = [(n / 256) as u8, (n % 256) as u8];
    text::put_text(out, at, &size)
}

// Puts the bytes of a header that is well.
fn put_header(out: &mut [u8], at: usize, header: &[u8]) -> usize
    requires value { fine ≡ header_judged header.now }
    requires header_in_bounds { at + length header.now ≤ length out.old }
    ensures put { Put out.old at (header_bytes header.now) out.new result }
    ensures upper_bound { result ≤ at + length header.now }
{
    if header.len() == HEADER_DIGITS {
        return put_hex(out, at, header);
    }
    put_bits(out, at, header)
}

// Puts the record of a line whose parts are well.
fn put_record(out: &mut [u8], at: usize, header: &[u8], digits: &[u8]) -> usize
    requires value { fine ≡ judged_of header.now digits.now }
    requires digits_in_bounds { at + (2 + (length header.now + length digits.now)) ≤ length out.old }
    ensures put { Put out.old at (record_of header.now digits.now) out.new result }
    ensures upper_bound { result ≤ at + (2 + (length header.now + length digits.now)) }
{
    let a = put_size(out, at, digits.len() / 2);
    let b = put_header(out, a, header);
    put_hex(out, b, digits)
}

// Packs the two parts of a line, where they are well.
fn pack_parts(header: &[u8], digits: &[u8], out: &mut [u8], at: usize) -> Packed
    requires header_len_bound { length header.now ≤ longest_line }
    requires digits_in_bounds { at + 2 * (length header.now + length digits.now) ≤ length out.old }
    ensures { PacksParts header.now digits.now out.old at out.new result }
{
    match judge(header, digits) {
        Err(wrong) => Packed {
            judged: Err(wrong),
            to: at,
        },
        Ok(()) => Packed {
            judged: Ok(()),
            to: put_record(out, at, header, digits),
        },
    }
}

// Where the letters of a line end: before a carriage return at its end.
fn letters_end(line: &[u8]) -> usize
    ensures value { result ≡ end_in line.now }
    ensures upper_bound { result ≤ length line.now }
{
    let n = line.len();
    if n == 0 {
        return 0;
    }
    if line[n - 1] == b'\r' {
        return n - 1;
    }
    n
}

// Whether letters are passed over: where there are none, and where the first is `#`.
fn is_passed(letters: &[u8]) -> bool
    ensures { result ≡ passed_over letters.now }
{
    if letters.len() == 0 {
        return true;
    }
    letters[0] == b'#'
}

// Where a payload starts: after the space, where there is one.
fn digits_from(letters: &[u8], space: usize) -> usize
    requires { space ≡ place_in letters.now 32 }
    ensures value { result ≡ digits_from letters.now }
    ensures upper_bound { result ≤ length letters.now }
{
    if space < letters.len() {
        return space + 1;
    }
    space
}

// Packs a line, without its line feed: its record goes into `out` at `at`, where it is one.
pub fn pack_line(line: &[u8], out: &mut [u8], at: usize) -> Packed
    requires line_len_bound { length line.now ≤ longest_line }
    requires line_in_bounds { at + 2 * length line.now ≤ length out.old }
    ensures { Packs line.now out.old at out.new result }
{
    let end = letters_end(line);
    let letters = &line[..end];
    if is_passed(letters) {
        return Packed {
            judged: Ok(()),
            to: at,
        };
    }
    let space = find(letters, b' ');
    let from = digits_from(letters, space);
    pack_parts(&letters[..space], &letters[from..], out, at)
}

// What stands at the front of some bytes.
fn next_line(rest: &[u8]) -> Front
    ensures { result ≡ front_of rest.now }
{
    let end = find(rest, b'\n');
    if LONGEST_LINE < end {
        return Front::TooLong;
    }
    if end < rest.len() {
        return Front::Line { end };
    }
    Front::Unended
}

// Whether a line is wrong, so that no more are packed.
pub fn is_wrong(judged: Judged) -> bool
    ensures { result ≡ wrong_of judged }
{
    judged.is_err()
}

// All whole lines at the front of a piece, up to the first that is wrong: their records go into `out` from `at` on. A record is less
// than twice as long as its line. `start` lines came before; a number of lines past 2^64, which no input reaches, would wrap.
pub fn pack_lines(start: u64, piece: &[u8], out: &mut [u8], at: usize) -> Listed<u64, Judged>
    requires { at + 2 * length piece.now ≤ length out.old }
    ensures { Scanned pack_walk 2 start piece.now out.old at out.new result.state result.left result.to (judged_ends result.ending) }
{
    let mut lines = start;
    let mut rest = piece;
    let mut to = at;
    let ending = loop {
        match next_line(rest) {
            Front::Line { end } => {
                let packed = pack_line(&rest[..end], out, to);
                to = packed.to;
                let judged = packed.judged;
                if is_wrong(judged) {
                    break judged;
                }
                lines = lines.wrapping_add(1);
                rest = &rest[end + 1..];
            }
            Front::TooLong => {
                break Err(Wrong {
                    fault: Fault::LongLine,
                    column: LONGEST_LINE + 1,
                });
            }
            Front::Unended => break Ok(()),
        }
    };
    Listed {
        state: lines,
        left: rest.len(),
        to,
        ending,
    }
}

// Where packing starts: no line is wrong yet.
pub fn open() -> Judged
    ensures { result ≡ opened }
{
    let start = Ok(());
    start
}

// The first `end` bytes of a buffer, after so many lines: the records of their lines go into `out`, and what is left goes to the buffer's
// front.
pub fn pack_piece(lines: u64, buf: &mut [u8], end: usize, out: &mut [u8]) -> Listed<u64, Judged>
    requires end_in_bounds { end ≤ length buf.old }
    requires end_in_bounds_2 { 2 * end ≤ length out.old }
    ensures { Turned pack_walk 2 lines buf.old end out.old buf.new out.new result.state result.left result.to (judged_ends result.ending) }
{
    let packed = pack_lines(lines, &buf[..end], out, 0);
    let left = packed.left;
    walk::keep_last(buf, end, left);
    packed
}

// After so many lines the input has ended, or a line is wrong. Where none is, the rest is a last line that no line feed ended, and its
// record goes to the front of `out`.
pub fn close(lines: u64, judged: Judged, rest: &[u8], out: &mut [u8]) -> Ended
    requires rest_len_bound { wrong_of judged ≡ false → length rest.now ≤ longest_line }
    requires rest_in_bounds { 2 * length rest.now ≤ length out.old }
    ensures { Closes lines judged rest.now out.old out.new result }
{
    let line = lines.wrapping_add(1);
    if is_wrong(judged) {
        return Ended {
            to: 0,
            line,
            judged,
        };
    }
    let last = pack_line(rest, out, 0);
    let judged = last.judged;
    Ended {
        to: last.to,
        line,
        judged,
    }
}
