// The reader of a header alone (refusals 20, 1, 2, 23, 3, 21, 4, 5, 24, 6): the words' data make 70 bits, the bits make fields, and the
// fields are judged.
#![tactic(auto)]

ghost use Rattle.std.specs.Prelude.{◌≡◌, ℕ, ◌<◌, ◌≤◌, ◌^◌, length, get_or, replicate, Err};
ghost use Rattle.word.specs.Words.{word_limit};
ghost use Rattle.crc.specs.Halves.{header_bits};
ghost use Rattle.air.specs.Air.{word_count, air_bits};
ghost use Rattle.air.specs.Flips.{most_flips};
ghost use Rattle.sign.specs.Calls.{call_in};
ghost use Rattle.header.specs.Fields.{bits_of_words};
ghost use Rattle.header.specs.Patterns.{beside};
ghost use Rattle.header_reader.specs.Reading.{signal_with, signal, signed, judged_of, read_from, header_read};

use air::{AIR_BITS, AirBits, MOST_FLIPS, WORD_COUNT};
use base::{Reason, Refusal};
use crc::HeaderBits;
use header::{
    Accepted, Answer, LAST_CODING, Read, Rules, collect, last_source, satellite, unpack,
    with_patterns,
};
use sign::SIGN_BITS;
use word::table::Syndromes;

// Checks 21, 4, 5, 24 and 6 on the bits of a repaired header.
fn judge(rules: Rules, call: Option<&[u8]>, flips: u32, bits: HeaderBits) -> Answer
    ensures { result ≡ judged_of rules (call_in call.entry) flips (header_bits bits.hi bits.lo) }
{
    if rules.limit < flips {
        return Err(Reason::FlipsAboveLimit.at(flips as usize));
    }
    let header = unpack(bits.hi, bits.lo);
    let edition = rules.edition;
    let crc5 = crc::crc5(edition, bits);
    if crc5 != header.crc5 {
        return Err(Reason::Crc5Differs.at(crc5 as usize));
    }
    let src_id = header.fields.src_id;
    if last_source(edition) < src_id {
        return Err(Reason::UnknownSource.at(src_id as usize));
    }
    let sat = satellite(src_id);
    if sign::other_at(edition, call, sat) < SIGN_BITS {
        return Err(Reason::OtherCallSign.at(src_id as usize));
    }
    let ai_type_src = header.fields.ai_type_src;
    if LAST_CODING < ai_type_src {
        return Err(Reason::UnknownCoding.at(ai_type_src as usize));
    }
    Ok(Accepted { header, flips })
}

// The words whose data are `hi`.
const HI_WORDS: usize = 6;

// The same on fourteen repaired words.
fn judge_words(rules: Rules, call: Option<&[u8]>, flips: u32, words: [u16; WORD_COUNT]) -> Answer
    requires { (k : ℕ) → get_or words k 0 < word_limit }
    ensures { result ≡ judged_of rules (call_in call.entry) flips (bits_of_words words) }
{
    let hi = collect(&words[0..HI_WORDS]);
    let lo = collect(&words[HI_WORDS..WORD_COUNT]);
    judge(rules, call, flips, HeaderBits { hi, lo })
}

// Checks 2, 23, 3, 21, 4, 5, 24 and 6 on 210 bytes: what an accepted header tells, with the patterns of its words, or the first refusal.
fn accept_bits(
    table: &Syndromes,
    rules: Rules,
    call: Option<&[u8]>,
    air: &[u8; AIR_BITS],
) -> Result<(Accepted, [u16; WORD_COUNT]), Refusal>
    requires { rules.limit ≤ most_flips }
    ensures { read_from result ≡ header_read (signal_with rules (call_in call.entry) air.now) }
{
    let at = air::first_no_bit(air);
    if at < AIR_BITS {
        return Err(Reason::NoBit.at(at));
    }
    let named = rules.edition;
    let fault = sign::fault_at(named, call);
    if fault != SIGN_BITS {
        return Err(Reason::NoCallSign.at(fault));
    }
    // A `match`: with `map_err` and `?` what the closure answers was not found by the proof.
    let repaired = match air::repair_words(table, air::words(AirBits { bits: air })) {
        Ok(repaired) => repaired,
        Err(place) => return Err(Reason::BeyondRepair.at(place)),
    };
    let words = repaired.words;
    let patterns = repaired.patterns;
    let accepted = judge_words(rules, call, repaired.flips, words)?;
    Ok((accepted, patterns))
}

// The same of any bytes, after checks 20 and 1.
fn accept(
    table: &Syndromes,
    rules: Rules,
    call: Option<&[u8]>,
    air: &[u8],
) -> Result<(Accepted, [u16; WORD_COUNT]), Refusal>
    ensures { read_from result ≡ header_read (signal_with rules (call_in call.entry) air.now) }
{
    let limit = rules.limit;
    if MOST_FLIPS < limit {
        return Err(Reason::LimitAbove42.at(limit as usize));
    }
    let Some(bits) = air.as_array::<AIR_BITS>() else {
        return Err(Reason::Not210Long.at(air.len()));
    };
    accept_bits(table, rules, call, bits)
}

// The reader of a header alone, by a lent syndrome table: what a caller with many headers makes once. `call` is the
// call sign bits, where any are given; the edition says whether they are looked at.
pub fn read_header_with(table: &Syndromes, rules: Rules, call: Option<&[u8]>, air: &[u8]) -> Read
    ensures { result ≡ header_read (signal_with rules (call_in call.entry) air.now) }
{
    match accept(table, rules, call, air) {
        Ok(told) => {
            let patterns = told.1;
            with_patterns(Ok(told.0), patterns)
        }
        Err(why) => with_patterns(Err(why), [0; WORD_COUNT]),
    }
}

// The same with no call sign bits.
pub fn read_header_in(table: &Syndromes, rules: Rules, air: &[u8]) -> Read
    ensures { result ≡ header_read (signal rules air.now) }
{
    read_header_with(table, rules, None, air)
}

// The reader of a header alone, of any bytes: the repaired header, the number of flips and the patterns, or the first
// refusal of 20, 1, 2, 3, 21, 4, 5, 6.
pub fn read_header(rules: Rules, air: &[u8]) -> Read
    ensures { result ≡ header_read (signal rules air.now) }
{
    let table = Syndromes::new();
    read_header_in(&table, rules, air)
}

// The same with call sign bits, any bytes: 23 after 2, and 24 after 5. Under the corrected edition they are not looked at.
pub fn read_header_signed(rules: Rules, call: &[u8], air: &[u8]) -> Read
    ensures { result ≡ header_read (signed rules call.now air.now) }
{
    let table = Syndromes::new();
    read_header_with(&table, rules, Some(call), air)
}
