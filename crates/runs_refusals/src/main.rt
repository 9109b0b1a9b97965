// Document 01's refusals at their edges, a line for each case: what was asked, then `done` with its numbers or
// `refused` with its number. Building: L 19, 20, 255 and 256, a message and a frame one byte short, mode 3 and 4.
// Recovering: the same edges, a mark 2, silence, a clean frame of the shortest and of the longest message, and the
// frame of vector Q.Z.5, whose PSI is 16, heard as one of 20 bytes.
#![tactic(auto)]

ghost use Rattle.std.specs.Prelude.{◌≤◌};

use std::io;

// Builds, and writes the line.
fn build_case(
    rt: &impl Print,
    l: u64,
    mode: u64,
    message: &[u8],
    frame: &mut [u8],
) -> io::Result<()> {
    let size = message.len();
    let room = frame.len();
    print!(rt; "build L {l}, mode {mode}, message {size}, room {room}")?;
    runs_show::show_built(rt, uplink::build(l, mode, message, frame))?;
    println!(rt)
}

// Builds from M bytes with room for F.
fn build_sized<const M: usize, const F: usize>(rt: &impl Print, l: u64, mode: u64) -> io::Result<()>
    requires message { M ≤ 256 }
    requires room { F ≤ 9360 }
{
    build_case(rt, l, mode, &[0x5A; M], &mut [0; F])
}

// The lengths about the limits with all that they ask for, a message and a frame one byte short, and the modes about
// the limit.
fn build_edges(rt: &impl Print) -> io::Result<()> {
    build_sized::<19, 828>(rt, 19, 0)?;
    build_sized::<20, 864>(rt, 20, 0)?;
    build_sized::<255, 9324>(rt, 255, 0)?;
    build_sized::<256, 9360>(rt, 256, 0)?;
    build_sized::<19, 864>(rt, 20, 0)?;
    build_sized::<20, 863>(rt, 20, 0)?;
    build_sized::<20, 864>(rt, 20, 3)?;
    build_sized::<20, 864>(rt, 20, 4)
}

// Recovers, and writes the line but for its end. `what` says what the values are.
fn recover_asked(
    rt: &impl Print,
    what: &str,
    l: u64,
    marks: &[u8],
    values: &[u8],
    message: &mut [u8],
) -> io::Result<()> {
    let marked = marks.len();
    let valued = values.len();
    let room = message.len();
    print!(rt; "recover L {l}, marks {marked}, values {valued}, room {room}{what}")?;
    runs_show::show_recovered(rt, uplink::recover(l, marks, values, message))
}

// Recovers from N marks and V values, all 1, with room for M bytes.
fn recover_sized<const N: usize, const V: usize, const M: usize>(
    rt: &impl Print,
    l: u64,
) -> io::Result<()>
    requires marks { N ≤ 260 }
    requires values { V ≤ 6240 }
    requires room { M ≤ 256 }
{
    recover_asked(rt, "", l, &[1; N], &[1; V], &mut [0; M])?;
    println!(rt)
}

// Lengths outside the limits with all that they would ask for, and a mark, a value and a byte of room short.
fn recover_edges(rt: &impl Print) -> io::Result<()> {
    recover_sized::<23, 552, 256>(rt, 19)?;
    recover_sized::<260, 6240, 256>(rt, 256)?;
    recover_sized::<23, 576, 20>(rt, 20)?;
    recover_sized::<24, 575, 20>(rt, 20)?;
    recover_sized::<24, 576, 19>(rt, 20)
}

// Recovers 20 bytes from marks and values that have the right sizes.
fn recover_20(
    rt: &impl Print,
    what: &str,
    marks: &[u8; 24],
    values: &[[u8; 24]; 24],
) -> io::Result<()> {
    recover_asked(rt, what, 20, marks, values.as_flattened(), &mut [0; 20])?;
    println!(rt)
}

// A mark that is neither 0 nor 1, also in silence, and the two kinds of silence.
fn recover_marks(rt: &impl Print) -> io::Result<()> {
    let heard = [1; 24];
    let lost = [0; 24];
    let mut last_odd = heard;
    last_odd[23] = 2;
    recover_20(rt, ", last mark 2", &last_odd, &[[1; 24]; 24])?;
    let mut first_odd = lost;
    first_odd[0] = 2;
    recover_20(
        rt,
        ", first mark 2, all others 0",
        &first_odd,
        &[[1; 24]; 24],
    )?;
    recover_20(rt, ", all marks 0", &lost, &[[1; 24]; 24])?;
    recover_20(rt, ", all values 0", &heard, &[[0; 24]; 24])
}

// A message of L bytes, which P sub-packets carry, built and heard clean.
fn clean<const L: usize, const P: usize>(rt: &impl Print, mode: u64) -> io::Result<()>
    requires message { L ≤ 255 }
    requires packets { P ≤ 259 }
{
    let mut message = [0; L];
    runs_show::some_message(&mut message);
    let mut frame = [[0; 36]; P];
    build_case(rt, L as u64, mode, &message, frame.as_flattened_mut())?;
    let mut values = [[0; 24]; P];
    runs_show::hear(P, frame.as_flattened(), 1, 255, values.as_flattened_mut());
    let before = [0; L];
    let mut back = before;
    recover_asked(
        rt,
        ", clean",
        L as u64,
        &[1; P],
        values.as_flattened(),
        &mut back,
    )?;
    runs_show::show_back(rt, &message, &before, &back)
}

// Vector Q.Z.5 of document 000, Table Q.Z.19: its bursts as printed, a digit for each symbol.
const VECTOR: [&[u8; 36]; 24] = [
    b"011000100110011101000010110010101100",
    b"101000111001011101000010010111101001",
    b"111100001011011101000010100101011000",
    b"001111011000011101000010000111010100",
    b"100110010110011101000010100110011110",
    b"110111001100011101000010111100111001",
    b"000101010111011101000010010001001101",
    b"001100010111011101000010110010100101",
    b"110111101011011101000010101101100010",
    b"011000100010011101000010110000000111",
    b"001111001010011101000010100111101110",
    b"111111111111011101000010001000011101",
    b"010011110111011101000010001101101011",
    b"001011101010011101000010111101111101",
    b"100001011011011101000010111001111000",
    b"101001111111011101000010111101100111",
    b"001111001100011101000010000101001100",
    b"110000100010011101000010010110001110",
    b"110101110111011101000010100000000011",
    b"011100011001011101000010100011100001",
    b"001011110100011101000010111111010011",
    b"001100001100011101000010110111100010",
    b"101010111001011101000010010110010110",
    b"010001101100011101000010110101000010",
];

// The whole vector, heard clean; its PSI is 16.
fn vector(rt: &impl Print) -> io::Result<()> {
    let frame = VECTOR.map(|burst| burst.map(|digit| u8::from(digit == b'1')));
    let mut values = [[0; 24]; 24];
    runs_show::hear(24, frame.as_flattened(), 1, 255, values.as_flattened_mut());
    recover_20(rt, ", Q.Z.5", &[1; 24], &values)
}

fn main(rt: HostRuntime) -> io::Result<()> {
    build_edges(&rt)?;
    recover_edges(&rt)?;
    recover_marks(&rt)?;
    clean::<20, 24>(&rt, 2)?;
    clean::<255, 259>(&rt, 3)?;
    vector(&rt)
}
