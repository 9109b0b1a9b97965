// The search and its neighbours, for the benchmark: a C program lends them buffers. No part of the product's own C
// interface, which is the gateway's.
#![tactic(auto)]

ghost use Rattle.std.specs.Prelude.{map, ◌≡◌};
ghost use Rattle.bits.specs.Bits.{bit, is_one};
ghost use Rattle.whiten.specs.Whiten.{whitened};
ghost use Rattle.bench.specs.Alone.{Answered, Gathers};

use interleave::Heard;

// What is answered where the sizes are wrong; no string costs as much. A number, since C has no Result.
pub const REFUSED: u32 = 4294967295;

// The cost of the nearest string of n bits, whose bits are written, one byte each; or REFUSED, and nothing is written,
// unless there are 3 (n + 6) values, n at most 2,066, and room for n bits. C lends the room, so that n goes beside it.
#[unsafe(no_mangle)]
pub extern "C" fn gloam_bench_search(values: &[u8], n: usize, bits: &mut [u8]) -> u32
    ensures { Answered values.now n bits.old bits.new result }
{
    if 2066 < n {
        return REFUSED;
    }
    if values.len() != 3 * (n + 6) {
        return REFUSED;
    }
    if bits.len() < n {
        return REFUSED;
    }
    search::search(values, n, bits)
}

// The values heard for the coded bits of a message of l bytes in the coder's order; 0, or REFUSED where a size is
// wrong.
#[unsafe(no_mangle)]
pub extern "C" fn gloam_bench_gather(l: usize, marks: &[u8], values: &[u8], out: &mut [u8]) -> u32
    ensures { Gathers l marks.now values.now out.old out.new result }
{
    if l < 20 {
        return REFUSED;
    }
    if 255 < l {
        return REFUSED;
    }
    if marks.len() != l + 4 {
        return REFUSED;
    }
    if values.len() != 24 * (l + 4) {
        return REFUSED;
    }
    if out.len() < 96 + 24 * l {
        return REFUSED;
    }
    placing::gather(Heard { l, marks, values }, out);
    0
}

// Whitens a run of bits in place.
#[unsafe(no_mangle)]
pub extern "C" fn gloam_bench_whiten(bits: &mut [u8])
    ensures { bits.new ≡ map bit (whitened (map is_one bits.old)) }
{
    whiten::apply(bits);
}
