// Frames as a whole, document 01: the values that were heard gathered in the coder's order, and the coded bits filled
// into the bursts. Both go through the sub-packets in order, and in each through the pairs of its symbols (the crate
// pairs).
#![tactic(auto)]

ghost use Rattle.std.specs.Prelude.{◌++◌, ◌≡◌, ◌+◌, ◌*◌, ◌≤◌, ◌<◌, drop, length};
ghost use Rattle.interleave.specs.Interleave.{coded_bits, sub_packets};
ghost use Rattle.interleave.specs.Bursts.{received};
ghost use Rattle.pairs.specs.Turns.{Gathered, Filled};
ghost use Rattle.placing.specs.Placing.{Framed};

use interleave::{Coded, Heard};
use pairs::Walk;

// Gathers the values of sub-packet s of the core.
fn gather_core_packet(s: usize, heard: Heard, out: &mut [u8])
    requires packet { s < 24 }
    requires room { coded_bits heard.l ≤ length out.old }
    ensures { Gathered heard.entry.l heard.entry.marks.now heard.entry.values.now
        (24 * s) (24 * (s + 1)) out.old out.new }
{
    Walk::first_pair(heard.l, s).gather(heard, out);
    Walk::next_pairs(heard.l, s).gather(heard, out);
    Walk::outer_pairs(heard.l, s).gather(heard, out);
}

// The values heard for the coded bits of the message, in the coder's order and zero where a sub-packet is lost, to the
// start of `out`. Out of line, since LLVM makes a slower loop of it within recovery: 56,200 and not 54,800 ns at L 255.
#[inline(never)]
pub fn gather(heard: Heard, out: &mut [u8])
    requires { coded_bits heard.l ≤ length out.old }
    ensures { out.new ≡ received heard.entry.l heard.entry.marks.now heard.entry.values.now
        ++ drop (coded_bits heard.entry.l) out.old }
{
    for s in 0..24 {
        gather_core_packet(s, heard, out);
    }
    for s in 24..heard.l + 4 {
        Walk::extension_pairs(heard.l, s).gather(heard, out);
    }
}

// Fills in the burst of sub-packet s of the core.
fn fill_core_packet(s: usize, coded: Coded, frame: &mut [u8])
    requires packet { s < 24 }
    requires room { 36 * sub_packets coded.l ≤ length frame.old }
    ensures { Filled coded.entry.l coded.entry.bits.now (36 * s) (36 * (s + 1)) frame.old frame.new }
{
    Walk::first_pair(coded.l, s).fill(coded, frame);
    Walk::next_pairs(coded.l, s).fill(coded, frame);
    Walk::outer_pairs(coded.l, s).fill(coded, frame);
    pairs::fill_pilot(coded.l, s, &interleave::CORE_PILOT, frame);
}

// The bursts of the coded bits, 36 bytes each in order of the sub-packets, to the start of `frame`.
pub fn fill(coded: Coded, frame: &mut [u8])
    requires { 36 * sub_packets coded.l ≤ length frame.old }
    ensures { Framed coded.entry.l coded.entry.bits.now frame.old frame.new }
{
    for s in 0..24 {
        fill_core_packet(s, coded, frame);
    }
    for s in 24..coded.l + 4 {
        Walk::extension_pairs(coded.l, s).fill(coded, frame);
        pairs::fill_pilot(coded.l, s, &interleave::EXTENSION_PILOT, frame);
    }
}
