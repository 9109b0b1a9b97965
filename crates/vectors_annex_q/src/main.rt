// Vector Q.Z.5 of document 000 (OMS Annex Q, Splitting Mode), step by step: checks, whitening, coding, interleaving,
// radio-bursts. Each step is written in the paper's form, and `stdout` is copied from the paper: the hex lines, the
// listing after whitening and Table Q.Z.19.
#![tactic(auto)]

ghost use Rattle.std.specs.Prelude.{◌≤◌, ◌<◌};

use interleave::Coded;
use std::io;

// The number of bytes of the MPDU, which PSI carries in this vector.
const PSI: u8 = 0x10;

// The MPDU of the vector.
const MPDU: [u8; 16] = [
    0x02, 0x42, 0x22, 0x02, 0xA7, 0x3D, 0x78, 0x56, 0x34, 0x12, 0x15, 0x03, 0x9F, 0x07, 0xFC, 0x0F,
];

// The hexadecimal digits.
const DIGITS: &[u8; 16] = b"0123456789ABCDEF";

// The bits of bytes in order.
fn bits_of<const N: usize>(bytes: [u8; N]) -> [[u8; 8]; N] {
    bytes.map(bits::of)
}

// The payload CRC: over the 16 bytes of the MPDU and the mode, which is 01.
fn payload_crc() -> u8 {
    let mut covered = [0; 130];
    covered[..128].copy_from_slice(bits_of(MPDU).as_flattened());
    covered[129] = 1;
    crc::crc8_of(&covered)
}

// The header CRC: over the payload CRC and PSI.
fn header_crc(payload_crc: u8) -> u8 {
    crc::crc8_of(bits_of([payload_crc, PSI]).as_flattened())
}

// The PHY payload: header CRC, payload CRC, PSI, the MPDU filled to 20 bytes by zeros, mode.
fn payload(header_crc: u8, payload_crc: u8) -> [u8; 186] {
    let mut out = [0; 186];
    out[..24].copy_from_slice(bits_of([header_crc, payload_crc, PSI]).as_flattened());
    out[24..152].copy_from_slice(bits_of(MPDU).as_flattened());
    out[185] = 1;
    out
}

// Writes bits as they are, 0 or 1, all at once: formatted one by one, the digits cost more than all the rest of the
// program.
fn print_bits<const N: usize>(rt: &impl Print, bits: &[u8; N]) -> io::Result<()>
    requires { N ≤ 186 }
{
    rt.write_all(&bits.map(|bit| b'0' + bit % 2))
}

// Four bits as a number, the first highest.
fn four(bits: &[u8; 4]) -> u8
    ensures { result < 16 }
{
    let [a, b, c, d] = *bits;
    8 * (a % 2) + 4 * (b % 2) + 2 * (c % 2) + d % 2
}

// Writes bits as hexadecimal digits, four to a digit. From a table, for the same reason.
fn print_hex(rt: &impl Print, bits: &[u8]) -> io::Result<()> {
    for bits in bits.as_chunks::<4>().0 {
        rt.write_all(&[DIGITS[usize::from(four(bits))]])?;
    }
    Ok(())
}

fn main(rt: HostRuntime) -> io::Result<()> {
    let payload_crc = payload_crc();
    println!(&rt; "CRC Payload (8 bit): {payload_crc:02X}")?;
    let header_crc = header_crc(payload_crc);
    println!(&rt; "CRC Header (8 bit): {header_crc:02X}")?;

    let mut payload = payload(header_crc, payload_crc);
    whiten::apply(&mut payload);
    print!(&rt; "PHY Payload after whitening (186 bit): ")?;
    print_bits(&rt, &payload)?;

    let mut coded = [0; 576];
    coder::encode(&payload, &mut coded);
    print!(&rt; "\nCoded Payload (576 bit): ")?;
    print_hex(&rt, &coded)?;

    let mut frame = [[0; 36]; 24];
    placing::fill(
        Coded {
            l: 20,
            bits: &coded,
        },
        frame.as_flattened_mut(),
    );
    print!(&rt; "\nCoded Payload after interleaving (576 bit): ")?;
    for burst in &frame {
        print_hex(&rt, &burst[..12])?;
        print_hex(&rt, &burst[24..])?;
    }
    println!(&rt; "\nResulting 24 Radio-bursts of core frame:")?;
    for (s, burst) in frame.iter().enumerate() {
        print!(&rt; "{s} ")?;
        print_bits(&rt, burst)?;
        println!(&rt)?;
    }
    Ok(())
}
