// One sub-packet, TS 103 357 clause 6.4.4.6 backwards: its symbols are taken in pairs from the pilot outwards. A walk
// gives the coded bits of a pair and the step to those of the next, with no division by a variable; it gathers the
// values of its pairs, and fills in their coded bits. Whole frames: the crate placing.
#![tactic(auto)]

ghost use Rattle.std.specs.Prelude.{cond, List, ◌≡◌, ℕ, ◌+◌, ◌-◌, ◌*◌, ◌≤◌, ◌<◌, length, slice_index};
ghost use Rattle.interleave.specs.Interleave.{coded_bits, sub_packets, Placed, pilot, Length};
ghost use Rattle.pairs.specs.Walks.{Walks, CorePacket, ExtensionPacket};
ghost use Rattle.pairs.specs.Turns.{Gathered, Filled};

use interleave::{Coded, Heard};

// The pairs from `from` to before `to` of sub-packet s, of a message of l bytes: where the coded bits of the first
// stand, below and above the pilot, and how far those of the next are.
#[derive(Clone, Copy)]
pub struct Walk {
    pub l: usize,
    pub s: usize,
    pub from: usize,
    pub to: usize,
    pub low: usize,
    pub high: usize,
    pub step: usize,
    pub ghost walks: { Walks l s from to low high step },
}

impl Walk {
    ghost use Rattle.pairs.specs.Over.{Over};

    // Of a sub-packet of the core the pair next to the pilot, whose coded bits are among the last 48.
    pub fn first_pair(l: usize, s: usize) -> Walk
        requires { CorePacket l s }
        ensures { Over l s 0 1 result }
    {
        let b = s % 2;
        Walk {
            l,
            s,
            from: 0,
            to: 1,
            low: 24 * b + s + (48 + 24 * l),
            high: 24 * (1 - b) + s + (48 + 24 * l),
            step: 48,
        }
    }

    // The five pairs after it.
    pub fn next_pairs(l: usize, s: usize) -> Walk
        requires { CorePacket l s }
        ensures { Over l s 1 6 result }
    {
        let b = s % 2;
        Walk {
            l,
            s,
            from: 1,
            to: 6,
            low: 24 * b + s,
            high: 24 * (1 - b) + s,
            step: 48,
        }
    }

    // The six outer pairs of a sub-packet of the core.
    pub fn outer_pairs(l: usize, s: usize) -> Walk
        requires { CorePacket l s }
        ensures { Over l s 6 12 result }
    {
        let length = l - 20 + 12;
        let b = s % 2;
        Walk {
            l,
            s,
            from: 6,
            to: 12,
            low: 240 + (3 * b * length + s / 2),
            high: 240 + ((2 - b) * length + s / 2),
            step: 4 * length,
        }
    }

    // The twelve pairs of a sub-packet of the extension.
    pub fn extension_pairs(l: usize, s: usize) -> Walk
        requires { ExtensionPacket l s }
        ensures { Over l s 0 12 result }
    {
        let length = l - 20 + 12;
        let b = s % 2;
        Walk {
            l,
            s,
            from: 0,
            to: 12,
            low: 240 + (b * length + (s - 12)),
            high: 240 + ((1 - b) * length + (s - 12)),
            step: 2 * length,
        }
    }

    // The coded bits of pair k, below and above the pilot.
    fn pair(self, k: usize) -> (usize, usize)
        requires from { self.from ≤ k }
        requires to { k < self.to }
        ensures low { Placed self.l result.0 self.s (11 - k) }
        ensures high { Placed self.l result.1 self.s (24 + k) }
    {
        let on = self.step * (k - self.from);
        (self.low + on, self.high + on)
    }

    // Gathers the values of the pairs. Not one function with `fill`: one reads where the other writes, and a closure for
    // both would be longer than either.
    pub fn gather(self, heard: Heard, out: &mut [u8])
        requires message { self.l ≡ heard.l }
        requires room { coded_bits heard.l ≤ length out.old }
        ensures { Gathered heard.entry.l heard.entry.marks.now heard.entry.values.now
            (24 * self.s + 2 * self.from) (24 * self.s + 2 * self.to) out.old out.new }
    {
        let is_heard = heard.marks[self.s] == 1;
        let values = &heard.values[24 * self.s..24 * self.s + 24];
        for k in self.from..self.to {
            let (low, high) = self.pair(k);
            out[low] = heard_or_zero(is_heard, values[11 - k]);
            out[high] = heard_or_zero(is_heard, values[12 + k]);
        }
    }

    // Fills in the coded bits of the pairs.
    pub fn fill(self, coded: Coded, frame: &mut [u8])
        requires message { self.l ≡ coded.l }
        requires room { 36 * sub_packets coded.l ≤ length frame.old }
        ensures { Filled coded.entry.l coded.entry.bits.now
            (36 * self.s + 2 * self.from) (36 * self.s + 2 * self.to) frame.old frame.new }
    {
        let burst = &mut frame[36 * self.s..36 * self.s + 36];
        for k in self.from..self.to {
            let (low, high) = self.pair(k);
            burst[11 - k] = coded.bits[low];
            burst[24 + k] = coded.bits[high];
        }
    }
}

// A value where it was heard, and zero where it was lost.
fn heard_or_zero(heard: bool, v: u8) -> u8
    ensures { result ≡ cond heard v 0 }
{
    if heard { v } else { 0 }
}

// Fills in the pilot of sub-packet s.
pub fn fill_pilot(l: usize, s: usize, pilots: &[u8; 12], frame: &mut [u8])
    requires message { Length l }
    requires packet { s < sub_packets l }
    requires room { 36 * sub_packets l ≤ length frame.old }
    requires sequence { (p : ℕ) → p < 12 → slice_index pilots.now p ≡ pilot s p }
    ensures { (coded : List ℕ) → Filled l coded (36 * s + 24) (36 * (s + 1)) frame.old frame.new }
{
    frame[36 * s + 12..36 * s + 24].copy_from_slice(pilots);
}
