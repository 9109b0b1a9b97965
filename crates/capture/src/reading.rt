// Reading a capture: its form, what is refused, and the values behind the heads of their fields.
ghost use Rattle.std.specs.Prelude.{◌++◌, ◌≡◌, ◌*◌, ◌/◌, ◌≤◌, length, take, drop, IfOk};
ghost use Rattle.refusals.specs.Refusals.{refused};
ghost use Rattle.capture.specs.Reading.{same_bytes, first_field, told_in, whole, values_from, read_refusal};
ghost use Rattle.capture.specs.Parts.{head_of, heads, Headed, Opening};

use crate::fields::{LENGTH, MARKS, VALUES, head};
use refusals::Refusal;

// The bytes open with the head of a field of this tag and length.
fn is_head(c: &[u8], tag: u8, size: usize) -> bool
    requires { Headed size c.now }
    ensures { result ≡ same_bytes (take 3 c.now) (head_of tag size) }
{
    c.starts_with(&head(tag, size))
}

// The bytes open with the field of the length, and its value is there.
fn is_opened(c: &[u8]) -> bool
    ensures { result ≡ first_field c.now }
{
    if c.len() < 4 {
        return false;
    }
    is_head(c, LENGTH, 1)
}

// The fields after 02 are of tag 03, length 24, one behind the other. A second form, told apart by the first tag here,
// would be looked at in this place.
fn after_marks(c: &[u8]) -> bool
    ensures { result ≡ heads (length c.now / 27) c.now }
{
    for s in 0..c.len() / 27 {
        if !is_head(&c[27 * s..], VALUES, 24) {
            return false;
        }
    }
    true
}

// The form of all that follows the first field, including the end. As many fields are looked at as the length asks for,
// and not as many as there are bytes, so that the size alone judges what stands behind them.
fn is_whole(l: usize, c: &[u8]) -> bool
    requires { Opening l c.now }
    ensures { result ≡ whole l c.now }
{
    if c.len() != 119 + 28 * l {
        return false;
    }
    if !is_head(&c[4..], MARKS, l + 4) {
        return false;
    }
    after_marks(&c[11 + l..119 + 28 * l])
}

// The length in a capture that can be read; or the first refusal that holds of 10, 1, 10, 5, 3.
pub fn may_read(c: &[u8], marks: usize, values: usize) -> Result<usize, Refusal>
    ensures refusal { refused result ≡ read_refusal c.now marks values }
    ensures told { IfOk result (λ l. l ≡ told_in c.now) }
{
    if !is_opened(c) {
        return Err(Refusal::Capture);
    }
    let l = usize::from(c[3]);
    if l < 20 {
        return Err(Refusal::Length);
    }
    if !is_whole(l, c) {
        return Err(Refusal::Capture);
    }
    if !uplink::judge::marks_good(&c[7..11 + l]) {
        return Err(Refusal::Mark);
    }
    if marks < l + 4 || values < 24 * (l + 4) {
        return Err(Refusal::Room);
    }
    Ok(l)
}

// Takes the values out of fields of tag 03, one behind the other, to the start of `values`. What lies beyond them is
// kept.
pub fn take_values(c: &[u8], values: &mut [u8])
    requires { 24 * (length c.now / 27) ≤ length values.old }
    ensures { values.new ≡ values_from (length c.now / 27) c.now ++ drop (24 * (length c.now / 27)) values.old }
{
    for s in 0..c.len() / 27 {
        let from = 27 * s + 3;
        buffers::copy_in(&c[from..from + 24], values, 24 * s);
    }
}
