// A header on air: 210 bits to fourteen words and back, and the repair of the fourteen.
#![tactic(auto)]

ghost use Rattle.std.specs.Prelude.{◌≡◌, ℕ, ◌+◌, ◌*◌, ◌/◌, ◌%◌, ◌^◌, ◌<◌, ◌≤◌, length, get_or, drop};
ghost use mathlib.Core.List.{◌++◌, foldl};
ghost use Rattle.std.specs.Int.Bits.{bit_or};
ghost use Rattle.base.specs.Lists.{AreBits};
ghost use Rattle.word.specs.Words.{positions, flip_count};
ghost use Rattle.air.specs.Air.{word_count, air_bits, words_of, air_of, first_no_bit};
ghost use Rattle.air.specs.Lanes.{top_position, lanes_to, padded, counts_of, lane_sum};
ghost use Rattle.air.specs.WordRepairs.{repair_words_of, worst_of};

use word::WORD_LIMIT;
use word::table::Syndromes;

// The words of a header.
pub const WORD_COUNT: usize = 14;

// The lanes in which they are gathered and counted: two past the words, since a loop over sixteen becomes instructions on all of them.
const LANES: usize = 16;

// The top position of a word, and the weight of its bit.
const TOP_POSITION: usize = 14;

const TOP_WEIGHT: u16 = 0x4000;

// The bits of a header on air.
pub const AIR_BITS: usize = 210;

// The most flips that repair undoes in one header, 42: three in each word.
pub const MOST_FLIPS: u32 = word::RADIUS * WORD_COUNT as u32;

// The most bytes of a payload: "the field has 10 bits, so 1,023 is the limit"
pub const LONGEST_PAYLOAD: usize = 1023;

// The bits of a header on air, each 0 or 1.
#[derive(Clone, Copy)]
pub struct AirBits<'a> {
    pub bits: &'a [u8; AIR_BITS],
    // Of an array behind a field the prover knows no length by itself.
    ghost whole: { length bits.now ≡ air_bits },
    ghost each: { AreBits bits.now },
}

// Fourteen repaired words and the flip pattern of each.
#[derive(Clone, Copy)]
pub struct RepairedWords {
    pub words: [u16; WORD_COUNT],
    pub patterns: [u16; WORD_COUNT],
    // The ones of all patterns.
    pub flips: u32,
}

// All elements or-ed: below 2 only where each is.
fn union(bytes: &[u8]) -> u8
    ensures { result ≡ foldl bit_or 0 bytes.now }
{
    bytes.iter().fold(0, |all, byte| all | *byte)
}

// The search for the lowest index of an element above 1.
fn look(bytes: &[u8]) -> usize
    ensures { result ≡ first_no_bit bytes.now }
{
    for i in 0..bytes.len() {
        if 1 < bytes[i] {
            return i;
        }
    }
    bytes.len()
}

// The lowest index of an element above 1, or the length. A test that leaves at each element is slow, so all are or-ed first.
pub fn first_no_bit(bytes: &[u8]) -> usize
    ensures { result ≡ first_no_bit bytes.now }
{
    if union(bytes) < 2 {
        return bytes.len();
    }
    look(bytes)
}

// A bit more, of some weight, above those that a word has.
fn with_bit(word: u16, bit: u8, weight: u16) -> u16
    requires word_lt_weight { word < weight }
    requires bit_bound { bit < 2 }
    requires weight_bound { weight ≤ 2 ^ top_position }
    ensures { result ≡ word + bit * weight }
{
    word + bit as u16 * weight
}

// Position i of each lane, taken in above those below it. The lanes past the words read on into the next position: nobody asks for them.
fn with_row(lanes: [u16; LANES], air: AirBits, i: usize, weight: u16) -> [u16; LANES]
    requires i_lt_top_position { i < top_position }
    requires weight_value { weight ≡ 2 ^ i }
    requires lanes_value { lanes ≡ lanes_to air.bits.now i }
    ensures { result ≡ lanes_to air.entry.bits.now (i + 1) }
{
    let mut next = [0u16; LANES];
    for j in 0..LANES {
        next[j] = with_bit(lanes[j], air.bits[WORD_COUNT * i + j], weight);
    }
    next
}

// The words without their top position, in lanes.
fn below_top(air: AirBits) -> [u16; LANES]
    ensures { result ≡ lanes_to air.entry.bits.now top_position }
{
    let mut lanes = [0u16; LANES];
    let mut weight: u16 = 1;
    for i in 0..TOP_POSITION {
        let next = with_row(lanes, air, i, weight);
        lanes = next;
        weight *= 2;
    }
    lanes
}

// The fourteen words of a header's air bits. No position follows the top one, so it has no lanes past the words.
pub fn words(air: AirBits) -> [u16; WORD_COUNT]
    ensures { result ≡ words_of air.entry.bits.now }
{
    let lanes = below_top(air);
    let mut all = [0u16; WORD_COUNT];
    for j in 0..WORD_COUNT {
        all[j] = with_bit(
            lanes[j],
            air.bits[WORD_COUNT * TOP_POSITION + j],
            TOP_WEIGHT,
        );
    }
    all
}

// Position i of a word.
fn bit(word: u16, i: usize) -> u8
    requires { i < positions }
    ensures { result ≡ word / 2 ^ i % 2 }
{
    ((word as usize >> i) % 2) as u8
}

// The words onto the air. What stands past the 210 bits is kept.
pub fn send(words: [u16; WORD_COUNT], out: &mut [u8])
    requires { air_bits ≤ length out.old }
    ensures { out.new ≡ air_of words ++ drop air_bits out.old }
{
    for n in 0..AIR_BITS {
        out[n] = bit(words[n % WORD_COUNT], n / WORD_COUNT);
    }
}

// The flips of a pattern: its ones at the positions of a word.
fn count(pattern: u16) -> u16
    ensures { result ≡ flip_count pattern }
{
    u16::count_ones(pattern % WORD_LIMIT) as u16
}

// Fourteen patterns in lanes: those past them hold 0.
fn in_lanes(patterns: [u16; WORD_COUNT]) -> [u16; LANES]
    ensures { result ≡ padded patterns }
{
    let mut lanes = [0u16; LANES];
    for j in 0..WORD_COUNT {
        lanes[j] = patterns[j];
    }
    lanes
}

// The flips of each lane.
fn count_each(lanes: [u16; LANES]) -> [u16; LANES]
    ensures { result ≡ counts_of lanes }
{
    let mut counts = [0u16; LANES];
    for j in 0..LANES {
        counts[j] = count(lanes[j]);
    }
    counts
}

// The flips of each pattern, in lanes: one pattern at a time takes three times as long.
fn counted(patterns: [u16; WORD_COUNT]) -> [u16; LANES]
    ensures { result ≡ counts_of patterns }
{
    count_each(in_lanes(patterns))
}

// The sum of counts.
fn sum(counts: [u16; LANES]) -> u16
    requires { (k : ℕ) → get_or counts k 0 ≤ positions }
    ensures { result ≡ lane_sum counts }
{
    let mut sum: u16 = 0;
    for j in 0..LANES {
        sum += counts[j];
    }
    sum
}

// The repair of fourteen words, by a lent syndrome table; or the lowest word beyond repair.
pub fn repair_words(table: &Syndromes, words: [u16; WORD_COUNT]) -> Result<RepairedWords, usize>
    ensures { result ≡ repair_words_of words }
{
    let mut repaired = [0u16; WORD_COUNT];
    let mut patterns = [0u16; WORD_COUNT];
    for j in 0..WORD_COUNT {
        let Some(found) = word::repair_in(table, words[j]) else {
            return Err(j);
        };
        repaired[j] = found.word;
        patterns[j] = found.flips;
    }
    let flips = sum(counted(patterns));
    Ok(RepairedWords {
        words: repaired,
        patterns,
        flips: flips as u32,
    })
}

// The lowest word with the most flips, by the counts of its patterns. The patterns themselves are lent for the contract alone.
fn worst_by(patterns: &[u16; WORD_COUNT], counts: [u16; LANES]) -> usize
    requires { counts ≡ counts_of patterns.now }
    ensures { result ≡ worst_of patterns.now }
{
    let mut worst = 0;
    let mut most: u16 = 0;
    for j in 0..WORD_COUNT {
        let flips = counts[j];
        if flips <= most {
            continue;
        }
        worst = j;
        most = flips;
    }
    worst
}

// The lowest word with the most flips.
pub fn worst(patterns: [u16; WORD_COUNT]) -> usize
    ensures { result ≡ worst_of patterns }
{
    let counts = counted(patterns);
    worst_by(&patterns, counts)
}
