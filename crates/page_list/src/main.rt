// Lists the power pages of the records on standard input, after each read. It moves bytes and does nothing else: the text is that of
// `page_listing`.
#![tactic(auto)]

ghost use Rattle.std.specs.Prelude.{◌≡◌, ◌*◌, ◌≤◌, ⊤};
ghost use Rattle.air.specs.Air.{payload_limit};
ghost use Rattle.record.specs.Records.{record_size};
ghost use Rattle.page_listing.specs.Listing.{growth, page_rules};

use air::MOST_FLIPS;
use base::Edition;
use header::Rules;
use page_lines::Counts;
use record::is_over;
use streams::pump::{Taker, Turn, pump};
use streams::write;
use word::table::Syndromes;

// The lines of a record may be 16 times as long as it, so what is read at once is a sixteenth of what is written.
const BUFFER_BYTES: usize = 4096;

const OUTPUT_BYTES: usize = 65536;

// A listing under way: how headers are read, and what was counted.
#[derive(Drop)]
struct Lister {
    table: Syndromes,
    rules: Rules,
    counts: Counts,
    ghost listed: { rules ≡ page_rules },
}

impl Taker for Lister {
    ghost fits = { λ buf out. (record_size payload_limit ≤ buf) × (growth * buf ≤ out) };

    ghost keeps = { λ l left. ⊤ };

    fn take(&mut self, buf: &mut [u8], end: usize, out: &mut [u8]) -> Turn {
        let listed = page_listing::list_piece(&self.table, self.rules, self.counts, buf, end, out);
        self.counts = listed.state;
        Turn {
            left: listed.left,
            to: listed.to,
            over: is_over(listed.ending),
        }
    }
}

// Lists the input, read by read. Where a read or a write fails, the lines up to there are written, and no last line.
fn main(rt: HostRuntime) {
    let mut buf = [0u8; BUFFER_BYTES];
    let mut out = [0u8; OUTPUT_BYTES];
    let opened = page_listing::open(&mut out);
    if !write(rt, &out[..opened.to]) {
        return;
    }
    let mut lister = Lister {
        table: Syndromes::new(),
        rules: Rules {
            edition: Edition::Flown,
            limit: MOST_FLIPS,
        },
        counts: opened.state,
    };
    if let Some(rest) = pump(rt, &mut lister, &mut buf, &mut out) {
        let n = page_listing::close(lister.counts, rest.left, &mut out);
        write(rt, &out[..n]);
    }
}
