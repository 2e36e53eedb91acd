// The wide sheet, of the corrected edition: 128 records.
#![tactic(auto)]

ghost use Rattle.std.specs.Prelude.{◌≡◌, ◌*◌, ◌≤◌};
ghost use Rattle.frame.specs.Frames.{frame};
ghost use Rattle.source.specs.Records.{count_limit};
ghost use Rattle.source.specs.Lanes.{lanes};
ghost use Rattle.source.specs.Counts.{refusal_counts};
ghost use Rattle.sheet.specs.Sheets.{records_of, new_sheet, accepted_of, refused_of, heard_of, full_of, offer_of, display_of};
ghost use Rattle.wide_sheet.specs.Wide.{held, widened, wide_offered};

use base::Edition;
use header::Rules;
use sheet::{Offered, Sheet};
use source::Display;

// The records: one for each SrcId.
pub const WIDE_RECORDS: usize = header::LAST_CORRECTED_SOURCE as usize + 1;

// The sheet, and what was read of a frame offered to it with the sheet after it.
pub type WideSheet = Sheet<WIDE_RECORDS>;

pub type WideOffered = Offered<WIDE_RECORDS>;

// A sheet that was offered nothing.
pub fn new_wide_sheet() -> WideSheet
    ensures { result ≡ widened (new_sheet Edition.Corrected) }
{
    Sheet::new()
}

// The numbers of any source. One without a record has those of a source that was never heard.
pub fn display_of_wide(sheet: WideSheet, source: u8) -> Display
    ensures { result ≡ display_of Edition.Corrected (held sheet) source }
{
    sheet.display_of(source)
}

// Frames accepted over all sources.
pub fn accepted_wide(sheet: WideSheet) -> u64
    ensures value { result ≡ accepted_of Edition.Corrected (held sheet) }
    ensures upper_bound { result ≤ records_of Edition.Corrected * (lanes * count_limit) }
{
    sheet.accepted()
}

// Frames refused over all numbers.
pub fn refused_wide(sheet: WideSheet) -> u64
    ensures value { result ≡ refused_of (held sheet) }
    ensures upper_bound { result ≤ refusal_counts * count_limit }
{
    sheet.refused()
}

// Frames offered so far.
pub fn heard_wide(sheet: WideSheet) -> u64
    ensures { result ≡ heard_of Edition.Corrected (held sheet) }
{
    sheet.heard()
}

// Whether the sheet takes no further frame.
pub fn full_wide(sheet: WideSheet) -> bool
    ensures { result ≡ full_of Edition.Corrected (held sheet) }
{
    sheet.full()
}

// A frame offered to any wide sheet, as `offer` does it with the other one.
pub fn offer_wide(sheet: WideSheet, rules: Rules, air: &[u8], payload: &[u8]) -> WideOffered
    ensures { result ≡ wide_offered (offer_of Edition.Corrected (held sheet) (frame rules air.now payload.now)) }
{
    sheet.offer_with(rules, None, air, payload)
}
