// Writes the pass sheet of the records on standard input. It moves bytes and does nothing else: the text is that of `sheet_listing`. The
// words after its name are those of `options`.
#![tactic(auto)]

ghost use Rattle.std.specs.Prelude.{◌≡◌, ◌≤◌, ⊤};
ghost use Rattle.air.specs.Air.{payload_limit};
ghost use Rattle.record.specs.Records.{record_size};
ghost use Rattle.frame.specs.Recorded.{listed_rules};

use air::MOST_FLIPS;
use base::Edition;
use header::Rules;
use lines::Tally;
use record::is_over;
use streams::pump::{Taker, Turn, pump};
use streams::write;
use wide_sheet::WideSheet;
use word::table::Syndromes;

// How much is read at once, and how much is written.
const BUFFER_BYTES: usize = 65536;

// A sheet under way: how headers are read, and what was counted.
#[derive(Drop)]
struct Counter {
    table: Syndromes,
    rules: Rules,
    sheet: WideSheet,
    tally: Tally,
    ghost listed: { rules ≡ listed_rules rules.edition },
}

impl Taker for Counter {
    ghost fits = { λ buf out. record_size payload_limit ≤ buf };

    ghost keeps = { λ c left. ⊤ };

    // Nothing is written before the end.
    fn take(&mut self, buf: &mut [u8], end: usize, out: &mut [u8]) -> Turn {
        let counted = sheet_listing::count_piece(
            &self.table,
            self.rules,
            self.sheet,
            self.tally,
            buf,
            end,
        );
        self.sheet = counted.sheet;
        self.tally = counted.tally;
        Turn {
            left: counted.left,
            to: 0,
            over: is_over(counted.ending),
        }
    }
}

// The sheet of standard input under an edition: the input is counted, read by read, and the sheet written at its end. Where a read fails, no sheet is
// written.
fn run(rt: HostRuntime, edition: Edition) {
    let mut buf = [0u8; BUFFER_BYTES];
    let mut out = [0u8; BUFFER_BYTES];
    let opened = sheet_listing::open(&mut out);
    if !write(rt, &out[..opened.to]) {
        return;
    }
    let mut counter = Counter {
        table: Syndromes::new(),
        rules: Rules {
            edition,
            limit: MOST_FLIPS,
        },
        sheet: opened.sheet,
        tally: opened.tally,
    };
    if let Some(rest) = pump(rt, &mut counter, &mut buf, &mut out) {
        let n = sheet_listing::close(edition, counter.sheet, counter.tally, rest.left, &mut out);
        write(rt, &out[..n]);
    }
}

fn main(rt: HostRuntime) {
    match options::read(rt) {
        Ok(
            options::Options {
                strict: false,
                edition,
            },
        ) => run(rt, edition),
        _ => options::tell(rt),
    }
}
