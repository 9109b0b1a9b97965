// The C interface, as include/gloamstrother.h tells it: build and recover, the stored capture both ways, and the values
// of a burst, each handing on just what the operation answers. None asks anything of its caller. C has no Result: an
// answer becomes a struct whose first field is the refusal's number, 0 where there is none, and a finding becomes its
// number.
#![tactic(auto)]

ghost use Rattle.uplink.specs.Build.{Builds};
ghost use Rattle.uplink.specs.Recover.{Recovers};
ghost use Rattle.capture.specs.Writing.{Writes};
ghost use Rattle.capture.specs.Reading.{Reads};
ghost use Rattle.quantise.specs.Quantise.{Quantises};
ghost use Rattle.gateway.specs.Gateway.{Hands, built_fields, recovered_fields, written_fields, read_fields, quantised_fields, version};
ghost use Rattle.std.specs.Prelude.{◌≡◌};

use quantise::Finding;
use refusals::Refusal;
use uplink::Recovered;

// gloam_written: 0 and the bytes written, or the refusal and 0.
#[repr(C)]
#[derive(Clone, Copy)]
pub struct GloamWritten {
    pub refusal: u32,
    pub size: u32,
}

impl From<Result<u32, Refusal>> for GloamWritten {
    ghost from_gives = { λ answer fields. fields ≡ written_fields answer };

    fn from(answer: Result<u32, Refusal>) -> GloamWritten {
        match answer {
            Ok(size) => GloamWritten { refusal: 0, size },
            Err(refusal) => GloamWritten {
                refusal: refusal.into(),
                size: 0,
            },
        }
    }
}

// gloam_read: 0 and the length of the message, or the refusal and 0. A struct beside GloamWritten, as in the header.
#[repr(C)]
#[derive(Clone, Copy)]
pub struct GloamRead {
    pub refusal: u32,
    pub length: u32,
}

impl From<Result<u32, Refusal>> for GloamRead {
    ghost from_gives = { λ answer fields. fields ≡ read_fields answer };

    fn from(answer: Result<u32, Refusal>) -> GloamRead {
        match answer {
            Ok(length) => GloamRead { refusal: 0, length },
            Err(refusal) => GloamRead {
                refusal: refusal.into(),
                length: 0,
            },
        }
    }
}

// gloam_recovered: 0, the length of the message, its mode and the cost, or the refusal and three times 0.
#[repr(C)]
#[derive(Clone, Copy)]
pub struct GloamRecovered {
    pub refusal: u32,
    pub length: u32,
    pub mode: u32,
    pub cost: u32,
}

impl From<Result<Recovered, Refusal>> for GloamRecovered {
    ghost from_gives = { λ answer fields. fields ≡ recovered_fields answer };

    fn from(answer: Result<Recovered, Refusal>) -> GloamRecovered {
        match answer {
            Ok(Recovered { length, mode, cost }) => GloamRecovered {
                refusal: 0,
                length,
                mode,
                cost,
            },
            Err(refusal) => GloamRecovered {
                refusal: refusal.into(),
                length: 0,
                mode: 0,
                cost: 0,
            },
        }
    }
}

// gloam_quantised: 0, the finding (1 heard, 2 silent, 3 faulty) and the peak of one that is heard, or the refusal; what
// does not hold is 0.
#[repr(C)]
#[derive(Clone, Copy)]
pub struct GloamQuantised {
    pub refusal: u32,
    pub finding: u32,
    pub peak: f32,
}

impl From<Result<Finding, Refusal>> for GloamQuantised {
    ghost from_gives = { λ answer fields. fields ≡ quantised_fields answer };

    fn from(answer: Result<Finding, Refusal>) -> GloamQuantised {
        match answer {
            Ok(Finding::Heard(peak)) => GloamQuantised {
                refusal: 0,
                finding: 1,
                peak,
            },
            Ok(Finding::Silent) => GloamQuantised {
                refusal: 0,
                finding: 2,
                peak: 0.0,
            },
            Ok(Finding::Faulty) => GloamQuantised {
                refusal: 0,
                finding: 3,
                peak: 0.0,
            },
            Err(refusal) => GloamQuantised {
                refusal: refusal.into(),
                finding: 0,
                peak: 0.0,
            },
        }
    }
}

// The version of this interface.
#[unsafe(no_mangle)]
pub extern "C" fn gloam_version() -> u32
    ensures { result ≡ version }
{
    200
}

// The frame of a message to the start of `frame`.
#[unsafe(no_mangle)]
pub extern "C" fn gloam_uplink_build(
    length: u64,
    mode: u64,
    message: &[u8],
    frame: &mut [u8],
) -> GloamWritten
    ensures { Hands (Builds length mode message.now frame.old frame.new) built_fields result }
{
    uplink::build(length, mode, message, frame).into()
}

// The message behind the nearest string to the start of `message`.
#[unsafe(no_mangle)]
pub extern "C" fn gloam_uplink_recover(
    length: u64,
    marks: &[u8],
    values: &[u8],
    message: &mut [u8],
) -> GloamRecovered
    ensures { Hands (Recovers length marks.now values.now message.old message.new) recovered_fields result }
{
    uplink::recover(length, marks, values, message).into()
}

// The capture of a length, marks and values to the start of `capture`.
#[unsafe(no_mangle)]
pub extern "C" fn gloam_capture_write(
    length: u64,
    marks: &[u8],
    values: &[u8],
    capture: &mut [u8],
) -> GloamWritten
    ensures { Hands (Writes length marks.now values.now capture.old capture.new) written_fields result }
{
    capture::write(length, marks, values, capture).into()
}

// The marks and the values in a capture to the starts of the two buffers.
#[unsafe(no_mangle)]
pub extern "C" fn gloam_capture_read(
    capture: &[u8],
    marks: &mut [u8],
    values: &mut [u8],
) -> GloamRead
    ensures { Hands (Reads capture.now marks.old values.old marks.new values.new) read_fields result }
{
    capture::read_back(capture, marks, values).into()
}

// The values of the numbers of one burst to the start of `values`, and what was found.
#[unsafe(no_mangle)]
pub extern "C" fn gloam_burst_quantise(numbers: &[f32], values: &mut [u8]) -> GloamQuantised
    ensures { Hands (Quantises numbers.now values.old values.new) quantised_fields result }
{
    quantise::quantise(numbers, values).into()
}
