// The stored capture, document 01: what a receiver heard of one frame, as tagged fields. Neither writing nor reading
// asks anything of its caller.
#![tactic(auto)]

mod fields;
mod reading;
mod writing;

ghost use Rattle.capture.specs.Writing.{Writes};
ghost use Rattle.capture.specs.Reading.{Reads};

use refusals::Refusal;

// The capture of a length, marks and values, 119 + 28 l bytes to the start of `capture`, and how many they are; or the
// first refusal that holds of 1, 2, 3, 5, and then nothing is written.
pub fn write(l: u64, marks: &[u8], values: &[u8], capture: &mut [u8]) -> Result<u32, Refusal>
    ensures { Writes l marks.now values.now capture.old capture.new result }
{
    let heard = writing::may_write(l, marks, values, capture.len())?;
    writing::put_capture(heard, capture);
    Ok(119 + 28 * heard.l as u32)
}

// The length in a capture, its marks and its values to the starts of the two buffers; or the first refusal that holds
// of 10, 1, 10, 5, 3, and then nothing is written.
pub fn read_back(capture: &[u8], marks: &mut [u8], values: &mut [u8]) -> Result<u32, Refusal>
    ensures { Reads capture.now marks.old values.old marks.new values.new result }
{
    let l = reading::may_read(capture, marks.len(), values.len())?;
    buffers::copy_in(&capture[7..11 + l], marks, 0);
    // As many fields as the length asks for, as where they were judged.
    reading::take_values(&capture[11 + l..119 + 28 * l], values);
    Ok(l as u32)
}
