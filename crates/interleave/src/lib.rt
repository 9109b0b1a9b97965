// Interleaving of the uplink, TS 103 357 clause 6.4.4.6, and its pilots, clause 6.4.2.1.1: which radio-burst and which
// symbol of it carries a coded bit, and the way back. For reading beside the clause: the frames as a whole are filled
// and gathered by the crate placing.
#![tactic(auto)]

mod frames;

ghost use Rattle.std.specs.Prelude.{◌≡◌, ◌<◌};
ghost use Rattle.interleave.specs.Interleave.{coded_bits, shifted_index, symbol, Placed, pilot, DataSymbol, OneOf, CodedBit, BurstSymbol, BurstPlace, Shifted, Ordered, Carried};

pub use frames::{Coded, Heard};

// A place in a frame: a sub-packet, and a symbol of the burst that carries it.
#[derive(Clone, Copy)]
pub struct Position {
    pub packet: usize,
    pub symbol: usize,
}

// The pilot sequences of the core and of the extension.
pub const CORE_PILOT: [u8; 12] = [0, 1, 1, 1, 0, 1, 0, 0, 0, 0, 1, 0];

pub const EXTENSION_PILOT: [u8; 12] = [0, 1, 0, 0, 1, 1, 1, 1, 1, 0, 1, 0];

// The index of coded bit j, of c, in the shifted stream.
pub fn shifted_index(c: usize, j: usize) -> usize
    requires { OneOf c j }
    ensures { result ≡ shifted_index c j }
{
    (j + 48) % c
}

// The coded bit at index i of the shifted stream, of a message of l bytes.
pub fn coded_bit(l: usize, i: usize) -> usize
    requires { CodedBit l i }
    ensures { Shifted (coded_bits l) result i }
{
    let rest = 48 + 24 * l;
    if i < 48 { i + rest } else { i - 48 }
}

// The symbol that carries place o of sub-packet s: in the left half of the burst where o + s is even, else in the right
// half, the middle first.
pub fn symbol_of(s: usize, o: usize) -> usize
    requires { o < 24 }
    ensures { result ≡ symbol s o }
{
    if (o + s % 2) % 2 == 0 {
        11 - o / 2
    } else {
        24 + o / 2
    }
}

// The place of sub-packet s that symbol m carries.
pub fn order_of(s: usize, m: usize) -> usize
    requires { DataSymbol m }
    ensures { Carried s result m }
{
    if m < 12 {
        2 * (11 - m) + s % 2
    } else {
        2 * (m - 24) + (1 - s % 2)
    }
}

// Value p, from 0 to 11, of the pilot in sub-packet s; it stands at symbol 12 + p.
pub fn pilot_at(s: usize, p: usize) -> u8
    requires { p < 12 }
    ensures { result ≡ pilot s p }
{
    if s < 24 {
        CORE_PILOT[p]
    } else {
        EXTENSION_PILOT[p]
    }
}

// A place among the 24 of a sub-packet. Not a Position: `order` counts these, and `symbol` the 36 of a burst.
#[derive(Clone, Copy)]
pub struct Slot {
    pub packet: usize,
    pub order: usize,
}

// The sub-packet in which index i lies, and its place there, of a message of l bytes.
pub fn slot_of(l: usize, i: usize) -> Slot
    requires { CodedBit l i }
    ensures { Ordered l i result.packet result.order }
{
    if i < 288 {
        return Slot {
            packet: i % 24,
            order: i / 24,
        };
    }
    let length = l - 20 + 12;
    let g = (i - 288) / length;
    let r = (i - 288) % length;
    if r < 12 {
        Slot {
            packet: r * 2 + g % 2,
            order: 12 + g / 2,
        }
    } else {
        Slot {
            packet: r + 12,
            order: g,
        }
    }
}

// The index at place o of sub-packet s of a message of l bytes.
pub fn index_of(l: usize, s: usize, o: usize) -> usize
    requires { BurstPlace l s o }
    ensures { Ordered l result s o }
{
    let length = l - 20 + 12;
    if s < 24 {
        if o < 12 {
            24 * o + s
        } else {
            288 + ((2 * (o - 12) + s % 2) * length + s / 2)
        }
    } else {
        288 + (o * length + (s - 12))
    }
}

// Where coded bit j of a message of l bytes is carried.
pub fn place(l: usize, j: usize) -> Position
    requires { CodedBit l j }
    ensures { Placed l j result.packet result.symbol }
{
    let i = shifted_index(96 + 24 * l, j);
    let slot = slot_of(l, i);
    Position {
        packet: slot.packet,
        symbol: symbol_of(slot.packet, slot.order),
    }
}

// The coded bit, of a message of l bytes, that symbol m of sub-packet s carries.
pub fn unplace(l: usize, s: usize, m: usize) -> usize
    requires { BurstSymbol l s m }
    ensures { Placed l result s m }
{
    let o = order_of(s, m);
    coded_bit(l, index_of(l, s, o))
}
