// Writing a capture: what is refused, and the fields one after the other.
ghost use Rattle.std.specs.Prelude.{◌++◌, ◌≡◌, ◌+◌, ◌*◌, ◌/◌, ◌≤◌, length, drop, IfOk};
ghost use Rattle.refusals.specs.Refusals.{refused};
ghost use Rattle.uplink.specs.Parts.{HeardOf};
ghost use Rattle.capture.specs.Capture.{field, packets, capture_of, capture_size};
ghost use Rattle.capture.specs.Writing.{write_refusal};
ghost use Rattle.capture.specs.Parts.{FieldFits};
ghost use Rattle.buffers.specs.Buffers.{Appends};

use crate::fields::{LENGTH, MARKS, VALUES, head};
use interleave::Heard;
use refusals::Refusal;

// What can be written; or the first refusal that holds of 1, 2, 3, 5.
pub fn may_write<'a>(
    l: u64,
    marks: &'a [u8],
    values: &'a [u8],
    room: usize,
) -> Result<Heard<'a>, Refusal>
    ensures refusal { refused result ≡ write_refusal l marks.now values.now room }
    ensures heard { IfOk result (HeardOf l marks.now values.now) }
{
    let heard = uplink::judge::sized(l, marks, values)?;
    if room < 119 + 28 * heard.l {
        return Err(Refusal::Room);
    }
    if !uplink::judge::marks_good(marks) {
        return Err(Refusal::Mark);
    }
    Ok(heard)
}

// Stores a field from `at` on: its tag, its length with the high byte first, its value. Gives the place after it. The
// place goes beside the buffer, which C lends: a writer that holds both would be a type and two methods for the three
// calls here.
fn put_field(tag: u8, value: &[u8], out: &mut [u8], at: usize) -> usize
    requires { FieldFits value.now out.old at }
    ensures { Appends out.old at (field tag value.now) out.new result }
{
    let next = buffers::copy_in(&head(tag, value.len()), out, at);
    buffers::copy_in(value, out, next)
}

// Stores fields of tag 03 from `at` on, 24 values each. Gives the place after them. The place goes beside the buffer,
// as at `put_field`.
fn put_packets(values: &[u8], out: &mut [u8], at: usize) -> usize
    requires { at + 27 * (length values.now / 24) ≤ length out.old }
    ensures { Appends out.old at (packets (length values.now / 24) values.now) out.new result }
{
    let mut next = at;
    for s in 0..values.len() / 24 {
        let from = 24 * s;
        next = put_field(VALUES, &values[from..from + 24], out, next);
    }
    next
}

// Stores the capture of what was heard to the start of `out`. What lies beyond it is kept.
pub fn put_capture(heard: Heard, out: &mut [u8])
    requires { capture_size heard.l ≤ length out.old }
    ensures { out.new
        ≡ capture_of heard.entry.l heard.entry.marks.now heard.entry.values.now ++ drop (capture_size heard.entry.l) out.old }
{
    let told = [heard.l as u8];
    let second = put_field(LENGTH, &told, out, 0);
    let third = put_field(MARKS, heard.marks, out, second);
    put_packets(heard.values, out, third);
}
