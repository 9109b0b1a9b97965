// The numbers of one burst, as the front end hands them out, to the values that recovery takes, with a finding
// (#101). It asks nothing of its caller.
#![tactic(auto)]

ghost use Rattle.std.specs.Prelude.{◌≡◌};
ghost use Rattle.std.specs.Float.{binary32};
ghost use Rattle.std.specs.Float.Ieee.{to_bits};
ghost use Rattle.quantise.specs.Number.{number_of};
ghost use Rattle.quantise.specs.Value.{value_of, held, nearest_whole};
ghost use Rattle.quantise.specs.Quantise.{Quantises};
ghost use Rattle.quantise.specs.Parts.{units_at, Middling, Taken, TookIn, found_at};

use refusals::Refusal;

// The sign's bit, and the least bit of the exponent: below it stands the fraction.
const SIGN: u32 = 0x8000_0000;

const EXPONENT: u32 = 0x80_0000;

// The bits of an infinity without its sign, above which stand those of NaNs; those of a quarter, and of 127; those of
// one NaN.
const INFINITY: u32 = 0x7f80_0000;

const QUARTER: u32 = 0x3e80_0000;

const LOUDEST: u32 = 0x42fe_0000;

const NAN: u32 = 0x7fc0_0000;

// What was found of a burst: heard, with the greatest magnitude among its numbers; silent, all of them zero; faulty,
// a NaN among them.
#[derive(Clone, Copy)]
pub enum Finding {
    Heard(f32),
    Silent,
    Faulty,
}

// The bits of a number; of a NaN, whatever its bits, those of one.
fn pattern(x: f32) -> u32
    ensures { result ≡ to_bits binary32 x }
{
    if x.is_nan() { NAN } else { x.to_bits() }
}

// The magnitude with these bits, from a quarter to 127, to the nearest whole number, halves up: one shift makes it a
// whole number of 2^-25.
fn rounded(m: u32) -> u32
    requires { Middling m }
    ensures { result ≡ nearest_whole (units_at m) }
{
    let mantissa = EXPONENT + m % EXPONENT;
    let steps = m / EXPONENT - 125;
    ((mantissa << steps) + 0x100_0000) / 0x200_0000
}

// The magnitude with these bits to the nearest whole number, halves up, held at 127: below a quarter everything rounds
// to 0, as a quarter does, and above 127 everything is held there.
fn rounded_and_held(m: u32) -> u32
    ensures { result ≡ held (nearest_whole (units_at m)) }
{
    rounded(m.clamp(QUARTER, LOUDEST))
}

// The value of the number with these bits.
fn value(b: u32) -> u8
    ensures { result ≡ value_of (number_of b) }
{
    let m = b % SIGN;
    if INFINITY < m {
        return 0;
    }
    let r = rounded_and_held(m);
    if b < SIGN {
        return r as u8;
    }
    (r as u8).wrapping_neg()
}

// Writes the values of 24 numbers to the start of `values`, and gives the greatest of their bits without signs. By
// number and not over the slice, so that the code says how many are looked at, and an edit can say another number.
fn take_in(numbers: &[f32], values: &mut [u8]) -> u32
    requires { Taken numbers.now values.old }
    ensures { TookIn numbers.now values.old values.new result }
{
    let mut peak = 0;
    for i in 0..24 {
        let b = pattern(numbers[i]);
        values[i] = value(b);
        peak = peak.max(b % SIGN);
    }
    peak
}

// The finding of a burst whose greatest bits without signs are these: a NaN's are above an infinity's, and an
// infinity's above all others.
fn found(peak: u32) -> Finding
    ensures { result ≡ found_at peak }
{
    if INFINITY < peak {
        return Finding::Faulty;
    }
    if peak == 0 {
        return Finding::Silent;
    }
    Finding::Heard(f32::from_bits(peak))
}

// The values of 24 numbers to the start of `values`, and what was found; or the first refusal that holds of 2, 3, and
// then nothing is written.
pub fn quantise(numbers: &[f32], values: &mut [u8]) -> Result<Finding, Refusal>
    ensures { Quantises numbers.now values.old values.new result }
{
    if numbers.len() != 24 {
        return Err(Refusal::Size);
    }
    if values.len() < 24 {
        return Err(Refusal::Room);
    }
    let peak = take_in(numbers, values);
    Ok(found(peak))
}
