// What the runs of document 01's cases share: a message to send, hearing a frame, and writing what an operation
// answered.
#![tactic(auto)]

ghost use Rattle.std.specs.Prelude.{◌*◌, ◌≤◌, length};

use refusals::Refusal;
use std::io;
use uplink::Recovered;

// Writes what building answered.
pub fn show_built(rt: &impl Print, answer: Result<u32, Refusal>) -> io::Result<()> {
    match answer {
        Ok(size) => print!(rt; ": done {size}"),
        Err(refusal) => print!(rt; ": refused {refusal}"),
    }
}

// Writes what recovering answered: length, mode and cost, or the number of the refusal.
pub fn show_recovered(rt: &impl Print, answer: Result<Recovered, Refusal>) -> io::Result<()> {
    match answer {
        Ok(Recovered { length, mode, cost }) => print!(rt; ": done {length} {mode} {cost}"),
        Err(refusal) => print!(rt; ": refused {refusal}"),
    }
}

// Writes what the lent buffer holds afterwards, the message that was sent or what it held before, and ends the line.
pub fn show_back(rt: &impl Print, sent: &[u8], before: &[u8], back: &[u8]) -> io::Result<()> {
    if back == sent {
        println!(rt; ", message as sent")
    } else if back == before {
        println!(rt; ", nothing written")
    } else {
        println!(rt; ", another message")
    }
}

// Makes a message in which the bytes differ: byte i is 37 i + 3, modulo 256.
pub fn some_message(out: &mut [u8])
    requires { length out.old ≤ 256 }
{
    for (i, byte) in out.iter_mut().enumerate() {
        *byte = ((37 * i + 3) % 256) as u8;
    }
}

// The 24 values of a burst, whose pilot is left out: a 1 is heard as `one`, a 0 as `zero`.
pub fn hear_burst(burst: &[u8; 36], one: u8, zero: u8) -> [u8; 24] {
    std::array::from_fn(|p| {
        let bit = if p < 12 { burst[p] } else { burst[p + 12] };
        if bit == 1 { one } else { zero }
    })
}

// The values of the first bursts of a frame, so many as there are packets, to the start of `values`.
pub fn hear(packets: usize, frame: &[u8], one: u8, zero: u8, values: &mut [u8])
    requires most { packets ≤ 259 }
    requires frame_holds { 36 * packets ≤ length frame.now }
    requires values_hold { 24 * packets ≤ length values.old }
{
    let (bursts, _) = frame.as_chunks::<36>();
    let (heard, _) = values.as_chunks_mut::<24>();
    for s in 0..packets {
        heard[s] = hear_burst(&bursts[s], one, zero);
    }
}
