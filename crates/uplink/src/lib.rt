// Building and recovering the uplink frame of a message, document 01. Neither asks anything of its caller: what cannot
// be taken is refused by its number.
#![tactic(auto)]

pub mod judge;

ghost use Rattle.std.specs.Prelude.{◌≡◌};
ghost use Rattle.uplink.specs.Build.{Builds};
ghost use Rattle.uplink.specs.Recover.{Recovers};
ghost use Rattle.uplink.specs.Parts.{Buildable, Put, Nearing};

use interleave::{Coded, Heard};
use refusals::Refusal;

// What recovering answers where it is done: the length of the message, its mode and the cost of the nearest string.
#[derive(Clone, Copy, Debug, PartialEq, Eq)]
pub struct Recovered {
    pub length: u32,
    pub mode: u32,
    pub cost: u32,
}

// Writes the frame of a message that can be built: payload, whitening, coding, placing.
fn put_frame(mode: u8, message: &[u8], frame: &mut [u8])
    requires { Buildable message.now mode frame.old }
    ensures { Put message.now mode frame.old frame.new }
{
    let l = message.len();
    let n = 26 + 8 * l;
    let mut bits = [0u8; 2066];
    payload::compose(message, mode, &mut bits);
    whiten::apply(&mut bits[..n]);
    let mut coded = [0u8; 6216];
    coder::encode(&bits[..n], &mut coded);
    placing::fill(Coded { l, bits: &coded }, frame);
}

// The frame of a message of l bytes and its mode, 36 (l + 4) bytes, each 0 or 1, to the start of `frame`, and how many
// they are; or the first refusal that holds of 1, 2, 3, 4, and then nothing is written.
pub fn build(l: u64, mode: u64, message: &[u8], frame: &mut [u8]) -> Result<u32, Refusal>
    ensures { Builds l mode message.now frame.old frame.new result }
{
    judge::may_build(l, mode, message.len(), frame.len())?;
    put_frame(mode as u8, message, frame);
    Ok(36 * (l as u32 + 4))
}

// The payload bits behind the nearest string to the values heard, one byte each, and that string's cost.
fn nearest_payload(heard: Heard, bits: &mut [u8; 2066]) -> u32
    ensures { Nearing heard.entry.l heard.entry.marks.now heard.entry.values.now bits.old bits.new result }
{
    let n = 26 + 8 * heard.l;
    let c = 96 + 24 * heard.l;
    let mut received = [0u8; 6216];
    placing::gather(heard, &mut received);
    let cost = search::search(&received[..c], n, bits);
    whiten::apply(&mut bits[..n]);
    cost
}

// The message behind the nearest string, l bytes to the start of `message`, with its mode and cost; or the first
// refusal that holds of 1, 2, 3, 5, 6, 7, 8, 9, and then nothing is written.
pub fn recover(
    l: u64,
    marks: &[u8],
    values: &[u8],
    message: &mut [u8],
) -> Result<Recovered, Refusal>
    ensures { Recovers l marks.now values.now message.old message.new result }
{
    let heard = judge::may_recover(l, marks, values, message.len())?;
    let mut bits = [0u8; 2066];
    let cost = nearest_payload(heard, &mut bits);
    let mode = payload::open(&bits[..26 + 8 * heard.l], heard.l, message)?;
    Ok(Recovered {
        length: heard.l as u32,
        mode: u32::from(mode),
        cost,
    })
}
