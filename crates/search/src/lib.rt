// Header answers out of a recording: what the header reader answers to the 210 bits after each marker, at the usual limit. "Payloads
// aren't read here, so checks 7 and 8 aren't applied."
#![tactic(auto)]

ghost use Rattle.std.specs.Prelude.{◌≡◌};
ghost use Rattle.search.specs.Reports.{window_read, mark_read};

use base::Edition;
use header::Read;
use marks::{MARKER_BITS, Mark, WINDOW_BITS};
use word::table::Syndromes;

// The header answer of a mark's 242 bits.
fn read_window(table: &Syndromes, edition: Edition, window: [u8; WINDOW_BITS]) -> Read
    ensures { result ≡ window_read edition window }
{
    let rules = header::usual(edition);
    header_reader::read_header_in(table, rules, &window[MARKER_BITS..])
}

// The header answer of a mark, by a lent syndrome table: what a caller with many marks makes once.
pub fn read_mark_in(table: &Syndromes, edition: Edition, mark: Mark) -> Read
    ensures { result ≡ mark_read edition mark }
{
    let window = mark.window;
    read_window(table, edition, window)
}

// The header answer of a mark.
pub fn read_mark(edition: Edition, mark: Mark) -> Read
    ensures { result ≡ mark_read edition mark }
{
    let table = Syndromes::new();
    read_mark_in(&table, edition, mark)
}
