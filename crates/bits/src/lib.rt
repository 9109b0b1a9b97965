// Bits, and the bytes and numbers that carry them.
#![tactic(auto)]

ghost use Rattle.std.specs.Prelude.{map, ◌≡◌, ◌≤◌};
ghost use Rattle.bits.specs.Bits.{bit, bits_of};

// The lowest N bits of a number, the most significant first.
pub fn of<const N: usize>(x: u8) -> [u8; N]
    requires { N ≤ 8 }
    ensures { result ≡ map bit (bits_of N x) }
{
    let mut bits = [0; N];
    for (k, bit) in bits.iter_mut().enumerate() {
        *bit = (x >> (N - 1 - k)) % 2;
    }
    bits
}
