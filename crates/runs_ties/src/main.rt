// Ties between two frames that both pass header CRC, PSI and payload CRC, for the shortest and the longest message. The
// messages differ by 101100101111, a multiple of the CRC's polynomial, laid over 12 of their bits, so that all checks
// stay right; the coded bits differ in 22 places. Those are heard in turn as one frame has them and as the other has,
// so both strings cost 11. The string with 0 at the first bit entering the coder where they differ is returned,
// whichever frame has the first turn.
#![tactic(auto)]

ghost use Rattle.std.specs.Prelude.{◌+◌, ◌≤◌, ◌<◌, length};

use std::io;

// Lays 10110010 and 1111 over bytes at and at + 1. A place and no length: the bytes around them stay.
fn lay_over(message: &mut [u8], at: usize)
    requires { at + 1 < length message.old }
{
    message[at] ^= 0xB2;
    message[at + 1] ^= 0xF0;
}

// The values of the frame of a message of L bytes, mode 1, which P sub-packets carry: 1 for a coded 1, else -1.
fn clean<const L: usize, const P: usize>(message: &[u8; L]) -> [[u8; 24]; P]
    requires message { L ≤ 255 }
    requires packets { P ≤ 259 }
{
    let mut frame = [[0; 36]; P];
    let _ = uplink::build(L as u64, 1, message, frame.as_flattened_mut());
    let mut values = [[0; 24]; P];
    runs_show::hear(P, frame.as_flattened(), 1, 255, values.as_flattened_mut());
    values
}

// The values between two frames: where they differ, they are in turn those of a and of b. Answers also in how many
// places they differ.
fn between<const P: usize>(a: &[[u8; 24]; P], b: &[[u8; 24]; P]) -> ([[u8; 24]; P], usize)
    requires { P ≤ 259 }
{
    let mut values = *a;
    let others = b.as_flattened();
    let mut places = 0;
    for (v, value) in values.as_flattened_mut().iter_mut().enumerate() {
        if *value != others[v] {
            if places % 2 == 1 {
                *value = others[v];
            }
            places += 1;
        }
    }
    (values, places)
}

// Hears between the frames of two messages a and b, and writes in how many places they differ, the answer, and which of
// the messages came back.
fn hear_between<const L: usize, const P: usize>(
    rt: &impl Print,
    what: &str,
    first: &[[u8; 24]; P],
    second: &[[u8; 24]; P],
    a: &[u8; L],
    b: &[u8; L],
) -> io::Result<()>
    requires message { L ≤ 255 }
    requires packets { P ≤ 259 }
{
    let (values, places) = between(first, second);
    print!(rt; "{what} first, places {places}")?;
    let mut back = [0; L];
    let answer = uplink::recover(L as u64, &[1; P], values.as_flattened(), &mut back);
    runs_show::show_recovered(rt, answer)?;
    if back == *a {
        println!(rt; ", message a")
    } else if back == *b {
        println!(rt; ", message b")
    } else {
        println!(rt; ", another message")
    }
}

// A tie of two messages of L bytes, which P sub-packets carry: they differ from byte `at` on.
fn tie<const L: usize, const P: usize>(rt: &impl Print, at: usize) -> io::Result<()>
    requires message { L ≤ 255 }
    requires packets { P ≤ 259 }
    requires inside { at + 1 < L }
{
    let mut a = [0; L];
    runs_show::some_message(&mut a);
    let mut b = a;
    lay_over(&mut b, at);
    print!(rt;
        "L {L}, from byte {at}: a has {:02x} {:02x}",
        a[at],
        a[at + 1]
    )?;
    println!(rt; ", b has {:02x} {:02x}", b[at], b[at + 1])?;
    let a_heard = clean::<L, P>(&a);
    let b_heard = clean::<L, P>(&b);
    hear_between(rt, "a", &a_heard, &b_heard, &a, &b)?;
    hear_between(rt, "b", &b_heard, &a_heard, &a, &b)
}

fn main(rt: HostRuntime) -> io::Result<()> {
    tie::<20, 24>(&rt, 5)?;
    tie::<20, 24>(&rt, 12)?;
    tie::<255, 259>(&rt, 200)?;
    tie::<255, 259>(&rt, 203)
}
