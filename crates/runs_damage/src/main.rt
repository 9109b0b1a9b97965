// Frames of 20 bytes that were damaged, a line for each. First a bit of the payload is wrong before whitening and
// coding, and the frame is heard clean: the check that meets it first refuses. Then a good frame is heard with values
// on the wrong side, with -128, and with a sub-packet lost: the message comes back, and the cost is the sum of the
// weights heard against it.
#![tactic(auto)]

ghost use Rattle.std.specs.Prelude.{◌<◌};

use interleave::Coded;
use std::io;

// Every sub-packet was heard.
const ALL: [u8; 24] = [1; 24];

// The payload of the message, mode 2.
fn good_payload(message: &[u8; 20]) -> [u8; 186] {
    let mut bits = [0; 186];
    payload::compose(message, 2, &mut bits);
    bits
}

// The payload with bit k wrong.
fn flipped(payload: &[u8; 186], k: usize) -> [u8; 186]
    requires { k < 186 }
{
    let mut bits = *payload;
    bits[k] ^= 1;
    bits
}

// The payload with its header CRC made right for what stands behind it.
fn header_mended(payload: &[u8; 186]) -> [u8; 186] {
    let mut bits = *payload;
    let header_crc = crc::crc8_of(&bits[8..24]);
    bits[..8].copy_from_slice(&bits::of::<8>(header_crc));
    bits
}

// The values of the payload's frame, a coded 1 heard as `one` and a coded 0 as `zero`.
fn heard(payload: &[u8; 186], one: u8, zero: u8) -> [[u8; 24]; 24] {
    let mut bits = *payload;
    whiten::apply(&mut bits);
    let mut coded = [0; 576];
    coder::encode(&bits, &mut coded);
    let mut frame = [[0; 36]; 24];
    placing::fill(
        Coded {
            l: 20,
            bits: &coded,
        },
        frame.as_flattened_mut(),
    );
    let mut values = [[0; 24]; 24];
    runs_show::hear(
        24,
        frame.as_flattened(),
        one,
        zero,
        values.as_flattened_mut(),
    );
    values
}

// Puts value v on the wrong side: `one` where a coded 0 was heard, else `zero`.
fn turn(values: &mut [[u8; 24]; 24], v: usize, one: u8, zero: u8)
    requires { v < 576 }
{
    let value = &mut values.as_flattened_mut()[v];
    *value = if 128 <= *value { one } else { zero };
}

// Recovers and writes the line: what was damaged, and the answer.
fn recover_case(
    rt: &impl Print,
    what: &str,
    marks: &[u8; 24],
    values: &[[u8; 24]; 24],
    sent: &[u8; 20],
) -> io::Result<()> {
    let before = [0; 20];
    let mut message = before;
    print!(rt; "{what}")?;
    let answer = uplink::recover(20, marks, values.as_flattened(), &mut message);
    runs_show::show_recovered(rt, answer)?;
    runs_show::show_back(rt, sent, &before, &message)
}

// The frame of a payload, heard clean.
fn hear_payload(
    rt: &impl Print,
    what: &str,
    payload: &[u8; 186],
    sent: &[u8; 20],
) -> io::Result<()> {
    recover_case(rt, what, &ALL, &heard(payload, 1, 255), sent)
}

// No bit wrong; a bit of each field wrong; and a bit wrong that the header CRC covers, with the header CRC right.
fn wrong_bits(rt: &impl Print, sent: &[u8; 20]) -> io::Result<()> {
    let good = good_payload(sent);
    hear_payload(rt, "no bit wrong", &good, sent)?;
    hear_payload(rt, "header CRC bit 3 wrong", &flipped(&good, 3), sent)?;
    hear_payload(rt, "payload CRC bit 2 wrong", &flipped(&good, 10), sent)?;
    hear_payload(rt, "PSI bit 7 wrong", &flipped(&good, 23), sent)?;
    hear_payload(rt, "message bit 100 wrong", &flipped(&good, 124), sent)?;
    hear_payload(rt, "mode bit 1 wrong", &flipped(&good, 185), sent)?;
    let payload_crc_wrong = header_mended(&flipped(&good, 10));
    hear_payload(
        rt,
        "payload CRC bit 2 wrong, header CRC right",
        &payload_crc_wrong,
        sent,
    )?;
    let psi_wrong = header_mended(&flipped(&good, 23));
    hear_payload(rt, "PSI bit 7 wrong, header CRC right", &psi_wrong, sent)
}

// Values on the wrong side, one after another, among weights of 60. Values 100 and 400 stand for a coded 1, and are
// -128.
fn wrong_sides(rt: &impl Print, sent: &[u8; 20]) -> io::Result<()> {
    let mut values = heard(&good_payload(sent), 60, 196);
    turn(&mut values, 100, 127, 128);
    recover_case(rt, "value 100 wrong by 128", &ALL, &values, sent)?;
    turn(&mut values, 101, 3, 253);
    recover_case(rt, "and value 101 by 3", &ALL, &values, sent)?;
    turn(&mut values, 102, 60, 196);
    recover_case(rt, "and value 102 by 60", &ALL, &values, sent)?;
    turn(&mut values, 400, 127, 128);
    recover_case(rt, "and value 400 by 128", &ALL, &values, sent)
}

// The least value that there is, on the right side.
fn least_values(rt: &impl Print, sent: &[u8; 20]) -> io::Result<()> {
    let values = heard(&good_payload(sent), 1, 128);
    recover_case(rt, "each coded 0 heard as -128", &ALL, &values, sent)
}

// Two sub-packets lost, with values on the wrong side that count for nothing.
fn lost(rt: &impl Print, sent: &[u8; 20]) -> io::Result<()> {
    let mut marks = ALL;
    marks[4] = 0;
    marks[17] = 0;
    let mut values = heard(&good_payload(sent), 1, 255);
    turn(&mut values, 96, 127, 128);
    turn(&mut values, 119, 127, 128);
    turn(&mut values, 408, 127, 128);
    turn(&mut values, 431, 127, 128);
    recover_case(
        rt,
        "wrong values in lost sub-packets",
        &marks,
        &values,
        sent,
    )
}

fn main(rt: HostRuntime) -> io::Result<()> {
    let mut message = [0; 20];
    runs_show::some_message(&mut message);
    wrong_bits(&rt, &message)?;
    wrong_sides(&rt, &message)?;
    least_values(&rt, &message)?;
    lost(&rt, &message)
}
