// One field of a frame written.
ghost use Rattle.std.specs.Prelude.{◌≡◌};
ghost use Rattle.beesat.specs.Writing.{with_row, renewed, write_field_of, FieldWritten};
ghost use Rattle.beesat.specs.Inside.{MayPut};

use crate::reading::{ERROR_AT, error_of, judge};
use crate::tables;
use base::{Reason, Written};

// The fields that may be written come first among the rows.
const FIELDS: u32 = 86;

// Whether a field may be written.
fn allowed(bytes: &[u8], field: u32, value: u32) -> Written
    ensures { result ≡ write_field_of bytes.now field value }
{
    let frame = judge(bytes)?;
    if FIELDS <= field {
        return Err(Reason::NoSuchField.at(field as usize));
    }
    let k = field as usize;
    if frame.is_idle() {
        return Err(Reason::NoSuchField.at(k));
    }
    if !layout::fits(tables::whole(), k, value as u64) {
        return Err(Reason::ValueTooLarge.at(value as usize));
    }
    Ok(())
}

// A value into field k, and the error field worked out afresh.
fn put_field(k: usize, value: u64, frame: &mut [u8])
    requires { MayPut frame.old k value }
    ensures { frame.new ≡ renewed (with_row k value frame.old) }
{
    let rows = tables::whole();
    layout::put(rows, k, value, frame);
    let error = error_of(frame) as u64;
    layout::put(rows, ERROR_AT, error, frame);
}

// A value into one field of a frame: only the field's bits and the error field change. Refused, in this order: 25 to 28 as in reading; 38 no such field,
// or an idle frame, place the field; 29 the value is too large, place the value. Then no byte is changed.
pub fn write_field(frame: &mut [u8], field: u32, value: u32) -> Written
    ensures { FieldWritten field value frame.old result frame.new }
{
    allowed(frame, field, value)?;
    put_field(field as usize, value as u64, frame);
    Ok(())
}
