// The fields of the PHY payload, TS 103 357 clauses 6.4.2.3 and 6.4.4.4, one byte to a bit: `compose` makes the payload
// bits of a message and a mode, and `open` checks payload bits and takes the message out of them. The search, the
// whitening and the radio burst are left to others.
#![tactic(auto)]

ghost use Rattle.std.specs.Prelude.{map, ◌++◌, ◌≡◌, ◌+◌, ◌*◌, ◌≤◌, ◌<◌, length, take, drop};
ghost use Rattle.std.proofs.lemmas.List.Edits.{sets};
ghost use Rattle.refusals.specs.Refusals.{refused};
ghost use Rattle.bits.specs.Bits.{bit, is_one, bits_of, bits_of_bytes, number_of};
ghost use Rattle.payload.specs.Payload.{payload_bits, payload};
ghost use Rattle.payload.specs.Open.{open_refusal, message_of};
ghost use Rattle.payload.specs.Calls.{Composable, PartOf, Checkable, Openable, Opening};

use refusals::Refusal;

// Puts the lowest N bits of x at `at`, the most significant first. The place goes beside the bits, here and below: what
// is stored is a run behind a run, and the law of such runs speaks of places.
fn put_bits<const N: usize>(x: u8, bits: &mut [u8], at: usize)
    requires byte { N ≤ 8 }
    requires room { at + N ≤ length bits.old }
    ensures { bits.new ≡ sets bits.old at (map bit (bits_of N x)) }
{
    bits[at..at + N].copy_from_slice(&bits::of::<N>(x));
}

// Puts the bits of the bytes one after another, from `at` on.
fn put_bytes(message: &[u8], bits: &mut [u8], at: usize)
    requires { at + 8 * length message.now ≤ length bits.old }
    ensures { bits.new ≡ sets bits.old at (map bit (bits_of_bytes message.now)) }
{
    for (i, x) in message.iter().enumerate() {
        put_bits::<8>(*x, bits, at + 8 * i);
    }
}

// Puts what stands behind the two CRCs: the message's length, the message and the mode.
fn put_body(message: &[u8], mode: u8, bits: &mut [u8])
    requires { Composable message.now mode bits.old }
    ensures { bits.new ≡ sets bits.old 16 (map bit (bits_of 8 (length message.now) ++ (bits_of_bytes message.now ++ bits_of 2 mode))) }
{
    put_bits::<8>(message.len() as u8, bits, 16);
    put_bytes(message, bits, 24);
    put_bits::<2>(mode, bits, 24 + 8 * message.len());
}

// The payload bits of a message of 20 to 255 bytes and a mode of two bits, 26 + 8 l bytes, each 0 or 1, to the start of
// `bits`. What lies beyond them is kept.
pub fn compose(message: &[u8], mode: u8, bits: &mut [u8])
    requires { Composable message.now mode bits.old }
    ensures { bits.new ≡ map bit (payload message.now mode) ++ drop (payload_bits (length message.now)) bits.old }
{
    put_body(message, mode, bits);
    let n = 26 + 8 * message.len();
    let payload_crc = crc::crc8_of(&bits[24..n]);
    put_bits::<8>(payload_crc, bits, 8);
    let header_crc = crc::crc8_of(&bits[8..24]);
    put_bits::<8>(header_crc, bits, 0);
}

// The number that the `count` bits at `at` make, the most significant first. The place and the count are told, and not
// the part lent: lent, each of the five calls would need a second promise, that its bytes are bits.
fn number_at(bits: &[u8], at: usize, count: usize) -> u8
    requires byte { count ≤ 8 }
    requires part { PartOf bits.now at count }
    ensures { result ≡ number_of (take count (drop at (map is_one bits.now))) }
{
    let field = &bits[at..at + count];
    let mut x: u8 = 0;
    for bit in field {
        x = x * 2 + *bit;
    }
    x
}

// Takes l bytes out of the bits from place 24 on, to the start of `message`. What lies beyond them is kept.
fn take_message(bits: &[u8], l: usize, message: &mut [u8])
    requires { Openable bits.now l message.old }
    ensures { message.new ≡ message_of l (map is_one bits.now) ++ drop l message.old }
{
    for i in 0..l {
        message[i] = number_at(bits, 24 + 8 * i, 8);
    }
}

// The first check that fails, of header CRC, PSI and payload CRC.
fn check(bits: &[u8], l: usize) -> Result<(), Refusal>
    requires { Checkable bits.now l }
    ensures { refused result ≡ open_refusal l (map is_one bits.now) }
{
    if number_at(bits, 0, 8) != crc::crc8_of(&bits[8..24]) {
        return Err(Refusal::HeaderCrc);
    }
    if usize::from(number_at(bits, 16, 8)) != l {
        return Err(Refusal::Psi);
    }
    if number_at(bits, 8, 8) != crc::crc8_of(&bits[24..]) {
        return Err(Refusal::PayloadCrc);
    }
    Ok(())
}

// Opens the payload bits of a message of l bytes, one byte to a bit, each 0 or 1: checks the header CRC, the PSI and
// the payload CRC, in this order, and puts the message to the start of `message` once all three are right, and answers
// the mode. What lies beyond it is kept, and so is the whole buffer where a check fails.
pub fn open(bits: &[u8], l: usize, message: &mut [u8]) -> Result<u8, Refusal>
    requires { Openable bits.now l message.old }
    ensures { Opening l bits.now message.old message.new result }
{
    check(bits, l)?;
    take_message(bits, l, message);
    Ok(number_at(bits, 24 + 8 * l, 2))
}
