// Lists the records on standard input, after each read. It moves bytes and does nothing else: the text is `listing`'s. The words after
// its name are those of `options`: `--strict` tells on standard error where and why a listing was cut.
#![tactic(auto)]

ghost use Rattle.std.specs.Prelude.{◌≡◌, ◌*◌, ◌≤◌, length, ⊤};
ghost use Rattle.air.specs.Air.{payload_limit};
ghost use Rattle.record.specs.Records.{record_size};
ghost use Rattle.frame.specs.Recorded.{listed_rules};
ghost use Rattle.lines.specs.Rooms.{line_room};

use air::MOST_FLIPS;
use base::Edition;
use header::Rules;
use lines::Tally;
use record::{Ending, is_over};
use std::io::Write;
use streams::pump::{Rest, Taker, Turn, pump};
use streams::write;
use word::table::Syndromes;

// How much is read at once, and how much is written.
const BUFFER_BYTES: usize = 65536;

// Tells where and why the listing is cut.
fn tell_cut(rt: HostRuntime, ending: Ending, place: u64) {
    match write!(rt.stderr(), "cut at byte {place}") {
        Ok(()) => {}
        Err(_) => {}
    }
    match ending {
        Ending::Full => streams::say(rt, ": the sheet is full"),
        Ending::TooLong => streams::say(rt, ": the length there is over 1,023"),
        Ending::Waits => streams::say(rt, ": too few bytes for a record"),
    }
}

// A listing under way: how headers are read, what was counted, and how the last piece ended.
#[derive(Drop)]
struct Lister {
    table: Syndromes,
    rules: Rules,
    tally: Tally,
    ending: Ending,
    ghost listed: { rules ≡ listed_rules rules.edition },
}

impl Taker for Lister {
    ghost fits = { λ buf out. (record_size payload_limit ≤ buf) × (buf ≤ out) };

    ghost keeps = { λ l left. ⊤ };

    fn take(&mut self, buf: &mut [u8], end: usize, out: &mut [u8]) -> Turn {
        let listed = listing::list_piece(&self.table, self.rules, self.tally, buf, end, out);
        self.tally = listed.state;
        self.ending = listed.ending;
        Turn {
            left: listed.left,
            to: listed.to,
            over: is_over(listed.ending),
        }
    }
}

// Writes the last lines of a listing, of whose input so much is left.
fn finish(rt: HostRuntime, strict: bool, lister: &Lister, rest: Rest, out: &mut [u8])
    requires { 2 * line_room ≤ length out.old }
{
    let closed = listing::close(lister.tally, rest.left, out);
    if write(rt, &out[..closed.to]) && closed.cut && strict {
        tell_cut(rt, lister.ending, rest.place);
    }
}

// The listing of standard input under an edition, read by read. Where a read or a write fails, the lines up to there are written, and no last line.
fn run(rt: HostRuntime, edition: Edition, strict: bool) {
    let mut buf = [0u8; BUFFER_BYTES];
    let mut out = [0u8; BUFFER_BYTES];
    let opened = listing::open(&mut out);
    if !write(rt, &out[..opened.to]) {
        return;
    }
    let mut lister = Lister {
        table: Syndromes::new(),
        rules: Rules {
            edition,
            limit: MOST_FLIPS,
        },
        tally: opened.state,
        ending: Ending::Waits,
    };
    if let Some(rest) = pump(rt, &mut lister, &mut buf, &mut out) {
        finish(rt, strict, &lister, rest, &mut out);
    }
}

// Tells of a wrong word, and of the right ones.
fn tell(rt: HostRuntime) {
    streams::say(
        rt,
        "edition flown or corrected: --edition wants one of these two, and --strict is the only other word",
    );
}

fn main(rt: HostRuntime) {
    let Ok(asked) = options::read(rt) else {
        tell(rt);
        return;
    };
    let edition = asked.edition;
    run(rt, edition, asked.strict);
}
