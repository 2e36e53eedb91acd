// The header writer: the fields make 70 bits, the bits make fourteen words, and the words are sent.
#![tactic(auto)]

ghost use Rattle.std.specs.Prelude.{◌≡◌, [], ◌∷◌, ◌++◌, ◌+◌, ◌*◌, ◌<◌, ◌≤◌, ◌^◌, length, take, drop};
ghost use Rattle.base.specs.Parts.{joined};
ghost use Rattle.air.specs.Air.{word_count, air_bits, payload_limit};
ghost use Rattle.header.specs.Fields.{field_count, values_of, data_at, coded_of};
ghost use Rattle.header.specs.Writing.{most_of, first_over, air_for, HeaderWritten};
ghost use Rattle.crc.specs.Halves.{header_bits};
ghost use Rattle.header.specs.HalfWidths.{lower_widths, upper_fields, upper_widths};

use air::{AIR_BITS, LONGEST_PAYLOAD, WORD_COUNT};
use base::{Edition, Reason, Written};
use crc::HeaderBits;
use header::{FIELD_COUNT, Fields, LAST_CODING, LAST_CORRECTED_SOURCE, last_source};

// The most that fields 0 to 13 may be under the corrected edition: their widths bound them, AiTypeSrc also 3.
const MOST: [u8; FIELD_COUNT] = [
    LAST_CORRECTED_SOURCE,
    127,
    15,
    15,
    15,
    LAST_CODING,
    15,
    3,
    1,
    1,
    1,
    1,
    1,
    1,
];

// The most that field k may be. SrcId's bound is its edition's.
fn most(edition: Edition, k: usize) -> u8
    requires { k < field_count }
    ensures { result ≡ most_of edition k }
{
    if k == 0 {
        return last_source(edition);
    }
    MOST[k]
}

// The lowest of fourteen values above its bound, or 14.
fn first_above(edition: Edition, values: [u8; FIELD_COUNT]) -> usize
    ensures { result ≡ first_over edition values }
{
    for k in 0..FIELD_COUNT {
        if most(edition, k) < values[k] {
            return k;
        }
    }
    FIELD_COUNT
}

// The lowest field out of range, or 14.
fn first_over(edition: Edition, f: Fields) -> usize
    ensures { result ≡ first_over edition (values_of f) }
{
    first_above(edition, f.values())
}

// Header bits 0 to 29.
fn upper(f: Fields) -> u64
    ensures { result ≡ joined upper_widths (take upper_fields (values_of f)) }
{
    f.src_id as u64 * 0x80_0000
        + f.dst_id as u64 * 0x1_0000
        + f.fr_cnt_tx as u64 * 0x1000
        + f.fr_cnt_rx as u64 * 0x100
        + f.snr as u64 * 16
        + f.ai_type_src as u64
}

// Header bits 30 to 69, with a CRC5 of 0.
fn lower(f: Fields, pdu_length: u16, crc13: u16) -> u64
    ensures { result ≡ joined lower_widths (drop upper_fields (values_of f) ++ (pdu_length ∷ «crc13» ∷ 0 ∷ [])) }
{
    f.ai_type_dst as u64 * 0x10_0000_0000
        + f.dfc_id as u64 * 0x4_0000_0000
        + f.caller as u64 * 0x2_0000_0000
        + f.arq as u64 * 0x1_0000_0000
        + f.pdu_type_id as u64 * 0x8000_0000
        + f.bch_rq as u64 * 0x4000_0000
        + f.hailing as u64 * 0x2000_0000
        + f.ud_fl1 as u64 * 0x1000_0000
        + pdu_length as u64 * 0x4_0000
        + crc13 as u64 * 32
}

// The data of word j.
fn data_at(bits: HeaderBits, j: usize) -> u16
    requires { j < word_count }
    ensures { result ≡ data_at (header_bits bits.hi bits.lo) j }
{
    let end = 5 * j as u64 + 5;
    if end <= 30 {
        return ((bits.hi >> (30 - end)) % 32) as u16;
    }
    ((bits.lo >> (70 - end)) % 32) as u16
}

// The fourteen valid words of a header's bits.
fn coded(bits: HeaderBits) -> [u16; WORD_COUNT]
    ensures { result ≡ coded_of (header_bits bits.hi bits.lo) }
{
    let mut words = [0u16; WORD_COUNT];
    for j in 0..WORD_COUNT {
        words[j] = word::encode(data_at(bits, j));
    }
    words
}

// The header of a payload onto the air, where nothing stands against it.
fn put_header(edition: Edition, fields: Fields, payload: &[u8], out: &mut [u8])
    requires air_bits_in_bounds { air_bits ≤ length out.old }
    requires field_count_bound { field_count ≤ first_over edition (values_of fields) }
    requires payload_len_bound { length payload.now ≤ payload_limit }
    ensures { out.new ≡ air_for edition fields payload.now ++ drop air_bits out.old }
{
    let pdu_length = payload.len() as u16;
    let crc13 = crc::crc13(payload);
    let hi = upper(fields);
    let lo = lower(fields, pdu_length, crc13);
    let crc5 = crc::crc5(edition, HeaderBits { hi, lo }) as u64;
    let lo = lo + crc5;
    let words = coded(HeaderBits { hi, lo });
    air::send(words, out);
}

// The writer: the header of a payload as 210 bytes, each 0 or 1, at the start of the output; or the first refusal of
// 13 to 15, and then no byte is changed. PduLength and both checksums are worked out.
pub fn write_header(edition: Edition, fields: Fields, payload: &[u8], out: &mut [u8]) -> Written
    ensures { HeaderWritten edition fields payload.now out.old result out.new }
{
    let room = out.len();
    if room < AIR_BITS {
        return Err(Reason::ShortOutput.at(room));
    }
    let over = first_over(edition, fields);
    if over < FIELD_COUNT {
        return Err(Reason::OutOfRange.at(over));
    }
    let size = payload.len();
    if LONGEST_PAYLOAD < size {
        return Err(Reason::LongPayload.at(size));
    }
    put_header(edition, fields, payload, out);
    Ok(())
}
