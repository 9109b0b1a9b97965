// The CRC of 8 bits over a run of bits, one byte to a bit: polynomial 0x9B, initial value 0xFF, most significant bit
// first, no final xor.
#![tactic(auto)]

ghost use Rattle.std.specs.Prelude.{map, ◌≡◌};
ghost use Rattle.bits.specs.Bits.{is_one};
ghost use Rattle.crc.specs.Crc.{crc_step, crc8};

// The register after one more bit. A byte that is not 1 is the bit 0. The polynomial is laid over by a product, and not
// by a branch, which random bits would make slow.
pub fn crc8_step(register: u8, bit: u8) -> u8
    ensures { result ≡ crc_step 8 0x9B register (is_one bit) }
{
    let wide = u32::from(register);
    let moved = (wide * 2 % 256) as u8;
    let met = (wide + 128 * u32::from(bit == 1)) % 256;
    let overlay = (met / 128 * 0x9B) as u8;
    moved ^ overlay
}

// The CRC of a whole run of bits. Out of line, since LLVM makes a slower loop of it within recovery: 58,300 and not
// 54,800 ns at L 255.
#[inline(never)]
pub fn crc8_of(bits: &[u8]) -> u8
    ensures { result ≡ crc8 (map is_one bits.now) }
{
    bits.iter()
        .fold(0xFF, |register, bit| crc8_step(register, *bit))
}
