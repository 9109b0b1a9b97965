// What is refused, by document 01's numbers: one list for all operations.
#![tactic(auto)]

ghost use Rattle.std.specs.Prelude.{◌≡◌};
ghost use Rattle.refusals.specs.Refusals.{number};

use std::fmt;

// The first condition that holds, in an operation's order. A number is never used again for another meaning.
#[derive(Clone, Copy, Debug, PartialEq, Eq)]
pub enum Refusal {
    // The length is below 20 or above 255.
    Length = 1,
    // Message, marks, values or numbers are not of the exact size.
    Size = 2,
    // An output buffer is too short.
    Room = 3,
    // The mode is above 3.
    Mode = 4,
    // A mark is neither 0 nor 1.
    Mark = 5,
    // No heard sub-packet has a non-zero value.
    Silence = 6,
    // The header CRC of the nearest string is wrong.
    HeaderCrc = 7,
    // The PSI of the nearest string is not the told length.
    Psi = 8,
    // The payload CRC of the nearest string is wrong.
    PayloadCrc = 9,
    // The capture is malformed.
    Capture = 10,
}

impl From<Refusal> for u32 {
    ghost from_gives = { λ refusal n. n ≡ number refusal };

    // The refusal's number.
    fn from(refusal: Refusal) -> u32 {
        refusal as u32
    }
}

// A refusal is written as its number.
impl fmt::Display for Refusal {
    fn fmt<W: fmt::Write>(&self, f: &mut fmt::Formatter<W>) -> fmt::Result {
        let number = u32::from(*self);
        write!(f, "{number}")
    }
}
