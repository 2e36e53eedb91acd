// The pass sheet: a record of two lanes for each source, and a count for each refusal of a frame. A new sheet is the only reset.
// A sheet belongs to one edition, which its number of records tells: here are all sheets, and the flown one's functions. Those of the
// corrected one are in the crate `wide_sheet`.
#![tactic(auto)]

ghost use Rattle.std.specs.Prelude.{◌≡◌, ◌*◌, ◌<◌, ◌≤◌};
ghost use Rattle.sign.specs.Calls.{call_in};
ghost use Rattle.frame.specs.Frames.{frame, signed_frame, frame_with};
ghost use Rattle.source.specs.Records.{count_limit};
ghost use Rattle.source.specs.Lanes.{lanes, record_of};
ghost use Rattle.source.specs.Counts.{refusal_counts};
ghost use Rattle.sheet.specs.Sheets.{records_of, held, sized, sized_offered, edition_with, OfEdition, new_sheet, accept_of, accepted_of, refused_of, heard_of, full_sheet, full_of, offer_of, display_of};

use air::WORD_COUNT;
use base::{Edition, Reason};
use header::{Header, Read, Rules, with_patterns};
use source::{Display, REFUSAL_COUNTS, Source};
use word::table::Syndromes;

// The records of a sheet of the flown edition: one for each SrcId that is not refused.
pub const RECORDS: usize = header::LAST_FLOWN_SOURCE as usize + 1;

// A record for each SrcId of the edition; and in `refusals[k]` how many frames were refused with the number that count k is of.
#[derive(Clone, Copy)]
pub struct Sheet<const N: usize> {
    pub sources: [Source; N],
    pub refusals: [u32; REFUSAL_COUNTS],
}

// What was read of an offered frame, and the sheet after it.
#[derive(Clone, Copy)]
pub struct Offered<const N: usize> {
    pub read: Read,
    pub sheet: Sheet<N>,
}

// Those of the flown edition.
pub type FlownSheet = Sheet<RECORDS>;

pub type FlownOffered = Offered<RECORDS>;

// The frames that a sheet takes.
pub const FULL: u64 = 65535;

impl<const N: usize> Sheet<N> {
    // A sheet that was offered nothing.
    pub fn new() -> Sheet<N>
        requires { OfEdition N }
        ensures { result ≡ sized N (new_sheet (edition_with N)) }
    {
        let source = source::never_heard();
        Sheet {
            sources: [source; N],
            refusals: [0; REFUSAL_COUNTS],
        }
    }

    // The sheet after an accepted frame.
    fn accept(self, header: Header, flips: u32) -> Sheet<N>
        requires { record_of header < N }
        ensures { result ≡ sized N (accept_of (held self.entry) header flips) }
    {
        let mut after = self;
        let k = header.fields.src_id as usize;
        let source = after.sources[k];
        let changed = source::hear(source, header, flips);
        after.sources[k] = changed;
        after
    }

    // The numbers of any source. One without a record has those of a source that was never heard.
    pub fn display_of(&self, source: u8) -> Display
        requires { OfEdition N }
        ensures { result ≡ display_of (edition_with N) (held self.now) source }
    {
        let k = source as usize;
        if N <= k {
            return source::summed(source::never_heard());
        }
        let found = self.sources[k];
        source::summed(found)
    }

    // Frames accepted over all sources.
    pub fn accepted(&self) -> u64
        requires { OfEdition N }
        ensures value { result ≡ accepted_of (edition_with N) (held self.now) }
        ensures upper_bound { result ≤ N * (lanes * count_limit) }
    {
        let mut sum: u64 = 0;
        for source in &self.sources {
            sum += source::frames(*source);
        }
        sum
    }

    // Frames refused over all numbers.
    pub fn refused(&self) -> u64
        ensures value { result ≡ refused_of (held self.now) }
        ensures upper_bound { result ≤ refusal_counts * count_limit }
    {
        let counts = self.refusals;
        source::total(counts)
    }

    // Frames offered so far.
    pub fn heard(&self) -> u64
        requires { OfEdition N }
        ensures { result ≡ heard_of (edition_with N) (held self.now) }
    {
        self.accepted() + self.refused()
    }

    // Whether the sheet takes no further frame.
    pub fn full(&self) -> bool
        requires { OfEdition N }
        ensures { result ≡ full_of (edition_with N) (held self.now) }
    {
        FULL <= self.heard()
    }

    // The sheet's own edition.
    fn edition(&self) -> Edition
        ensures { result ≡ edition_with N }
    {
        if N == RECORDS {
            return Edition::Flown;
        }
        Edition::Corrected
    }

    // A frame of the sheet's edition offered to a sheet that is not full, by a lent syndrome table: the frame's own answer,
    // counted.
    fn take_in(
        self,
        table: &Syndromes,
        rules: Rules,
        call: Option<&[u8]>,
        air: &[u8],
        payload: &[u8],
    ) -> Offered<N>
        requires sheet_value { OfEdition N }
        requires sheet_bound { heard_of (edition_with N) (held self) < full_sheet }
        requires edition_value { rules.edition ≡ edition_with N }
        ensures { result ≡ sized_offered N (offer_of (edition_with N) (held self.entry) (frame_with rules (call_in call.entry) air.now payload.now)) }
    {
        let read = frame::read_frame_with(table, rules, call, air, payload);
        let answer = read.answer;
        match answer {
            Ok(accepted) => {
                let after = self.accept(accepted.header, accepted.flips);
                Offered { read, sheet: after }
            }
            Err(why) => {
                let mut after = self;
                let counts = after.refusals;
                let changed = source::refuse(counts, why.number);
                after.refusals = changed;
                Offered { read, sheet: after }
            }
        }
    }

    // A frame offered to any sheet, with call sign bits that are given or not.
    pub fn offer_with(
        self,
        rules: Rules,
        call: Option<&[u8]>,
        air: &[u8],
        payload: &[u8],
    ) -> Offered<N>
        requires { OfEdition N }
        ensures { result ≡ sized_offered N (offer_of (edition_with N) (held self.entry) (frame_with rules (call_in call.entry) air.now payload.now)) }
    {
        let own = rules.edition == self.edition();
        if self.full() {
            let why = Reason::SheetFull.at(FULL as usize);
            let read = with_patterns(Err(why), [0; WORD_COUNT]);
            return Offered { read, sheet: self };
        }
        if own {
            let table = Syndromes::new();
            return self.take_in(&table, rules, call, air, payload);
        }
        let why = Reason::OtherEdition.at(0);
        let read = with_patterns(Err(why), [0; WORD_COUNT]);
        Offered { read, sheet: self }
    }
}

// The flown edition's: a sheet that was offered nothing.
pub fn new_sheet() -> FlownSheet
    ensures { result ≡ new_sheet Edition.Flown }
{
    Sheet::new()
}

// The numbers of any source.
pub fn display_of(sheet: FlownSheet, source: u8) -> Display
    ensures { result ≡ display_of Edition.Flown sheet source }
{
    sheet.display_of(source)
}

// Frames accepted over all sources.
pub fn accepted(sheet: FlownSheet) -> u64
    ensures value { result ≡ accepted_of Edition.Flown sheet }
    ensures upper_bound { result ≤ records_of Edition.Flown * (lanes * count_limit) }
{
    sheet.accepted()
}

// Frames refused over all numbers.
pub fn refused(sheet: FlownSheet) -> u64
    ensures value { result ≡ refused_of sheet }
    ensures upper_bound { result ≤ refusal_counts * count_limit }
{
    sheet.refused()
}

// Frames offered so far.
pub fn heard(sheet: FlownSheet) -> u64
    ensures { result ≡ heard_of Edition.Flown sheet }
{
    sheet.heard()
}

// Whether the sheet takes no further frame.
pub fn full(sheet: FlownSheet) -> bool
    ensures { result ≡ full_of Edition.Flown sheet }
{
    sheet.full()
}

// (This and `wide_sheet::offer_wide` are one call of the method for all sheets; users call them by these names.)
// A frame offered to any sheet. A full sheet refuses it with 17, and a frame of the other edition is refused with 22; the sheet stays as
// it is then. Else the frame has its own answer, and the sheet has counted it.
pub fn offer(sheet: FlownSheet, rules: Rules, air: &[u8], payload: &[u8]) -> FlownOffered
    ensures { result ≡ offer_of Edition.Flown sheet (frame rules air.now payload.now) }
{
    sheet.offer_with(rules, None, air, payload)
}

// The same with call sign bits, any bytes: 23 after 2, and 24 after 5. A frame of the corrected edition is refused with 22, and its call
// sign is not looked at.
pub fn offer_signed(
    sheet: FlownSheet,
    rules: Rules,
    call: &[u8],
    air: &[u8],
    payload: &[u8],
) -> FlownOffered
    ensures { result ≡ offer_of Edition.Flown sheet (signed_frame rules call.now air.now payload.now) }
{
    sheet.offer_with(rules, Some(call), air, payload)
}
