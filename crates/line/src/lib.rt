// The report's line, document 01: one capture in, one line out.
#![tactic(auto)]

ghost use Rattle.std.specs.Prelude.{[], ◌∷◌, ◌++◌, ◌≡◌, ◌+◌, ◌*◌, ◌/◌, ◌%◌, ◌≤◌, ◌<◌, length, MatchResult};
ghost use Rattle.refusals.specs.Refusals.{number};
ghost use Rattle.line.specs.Line.{decimal, hex_digit, hex, report_refusal, report_line};
ghost use Rattle.line.specs.Report.{Reports};
ghost use Rattle.line.specs.Parts.{ok_head, refused_head, Recounted};

use arrayvec::ArrayVec;
use refusals::Refusal;
use uplink::Recovered;

// A line as it grows; the longest has 544 bytes.
type Line = ArrayVec<u8, 544>;

// Puts bytes at the end of a line that has room for them.
fn put(bytes: &[u8], line: &mut Line)
    requires { length line.old.items + length bytes.now ≤ 544 }
    ensures items { line.new.items ≡ line.old.items ++ bytes.now }
    ensures len { length line.new.items ≡ length line.old.items + length bytes.now }
{
    line.try_extend_from_slice(bytes).unwrap();
}

// Puts a number in decimal, ten digits at most.
fn put_decimal(n: u32, line: &mut Line)
    requires { length line.old.items + 10 ≤ 544 }
    ensures items { line.new.items ≡ line.old.items ++ decimal n }
    ensures len { length line.new.items ≤ length line.old.items + 10 }
    ensures small { n ≤ 255 → length line.new.items ≤ length line.old.items + 3 }
{
    let mut digits = [0u8; 20];
    let count = io::decimal(u64::from(n), &mut digits);
    put(&digits[..count], line);
}

// Puts a blank and a number in decimal.
fn put_number(n: u32, line: &mut Line)
    requires { length line.old.items + 11 ≤ 544 }
    ensures items { line.new.items ≡ line.old.items ++ (32 ∷ decimal n) }
    ensures len { length line.new.items ≤ length line.old.items + 11 }
    ensures small { n ≤ 255 → length line.new.items ≤ length line.old.items + 4 }
{
    put(b" ", line);
    put_decimal(n, line);
}

// The lower-case hex digit of a number below 16.
fn hex_digit(d: u8) -> u8
    requires { d < 16 }
    ensures { result ≡ hex_digit d }
{
    if d < 10 { 48 + d } else { 87 + d }
}

// Puts bytes as two hex digits each.
fn put_hex(bytes: &[u8], line: &mut Line)
    requires { length line.old.items + 2 * length bytes.now ≤ 544 }
    ensures items { line.new.items ≡ line.old.items ++ hex bytes.now }
    ensures len { length line.new.items ≡ length line.old.items + 2 * length bytes.now }
{
    for x in bytes {
        line.push(hex_digit(*x / 16));
        line.push(hex_digit(*x % 16));
    }
}

// The line of a message that was recovered, but for its line feed.
fn ok_line(recovered: Recovered, message: &[u8]) -> Line
    requires told { recovered.length ≤ 255 }
    requires message { length message.now ≤ 255 }
    ensures line { result.items ≡ ok_head recovered.length recovered.mode recovered.cost message.now }
    ensures within { length result.items ≤ 543 }
{
    let Recovered { length, mode, cost } = recovered;
    let mut line = Line::new();
    put(b"OK", &mut line);
    put_number(length, &mut line);
    put_number(mode, &mut line);
    put_number(cost, &mut line);
    put(b" ", &mut line);
    put_hex(message, &mut line);
    line
}

// The line of a refusal, but for its line feed.
fn refused_line(refusal: Refusal) -> Line
    ensures line { result.items ≡ refused_head (number refusal) }
    ensures within { length result.items ≤ 543 }
{
    let mut line = Line::new();
    put(b"REFUSED", &mut line);
    put_number(refusal.into(), &mut line);
    line
}

// What reading a capture and then recovering answer, its message at the start of `message`.
fn recovered(input: &[u8], message: &mut [u8; 255]) -> Result<Recovered, Refusal>
    ensures { MatchResult result (Recounted input.now message.new) (λ refusal. number refusal ≡ report_refusal input.now) }
{
    let mut marks = [0u8; 259];
    let mut values = [0u8; 6216];
    let l = capture::read_back(input, &mut marks, &mut values)?;
    let packets = l as usize + 4;
    uplink::recover(
        u64::from(l),
        &marks[..packets],
        &values[..24 * packets],
        message,
    )
}

// The line of a capture, but for its line feed.
#[tactic(auto, using(crate::proofs::Reporting::refused_as))]
fn line_of(input: &[u8]) -> Line
    ensures line { result.items ++ (10 ∷ []) ≡ report_line input.now }
    ensures within { length result.items ≤ 543 }
{
    let mut message = [0u8; 255];
    match recovered(input, &mut message) {
        Ok(recovered) => ok_line(recovered, &message[..recovered.length as usize]),
        Err(refusal) => refused_line(refusal),
    }
}

// The line of a capture, 544 bytes at most, to the start of `out`; answers its length.
pub fn report_line(input: &[u8], out: &mut [u8]) -> usize
    requires { 544 ≤ length out.old }
    ensures { Reports input.now out.new result }
{
    let mut line = line_of(input);
    line.push(b'\n');
    let size = line.len();
    out[..size].copy_from_slice(line.as_slice());
    size
}

// Reads to the end of the input, or until the buffer is full, and answers how many bytes of it are kept. A failed read
// ends the input. How many reads there are is the input's to say, so that no `for` counts them; a full buffer ends them
// without one more, since a reader may wait even where nothing is asked of it.
fn read_full<R: std::io::Read>(reader: &mut R, kept: &mut [u8]) -> usize
    ensures { result ≤ length kept.old }
{
    let mut at: usize = 0;
    while at < kept.len() {
        let Ok(count @ 1..) = reader.read(&mut kept[at..]) else {
            return at;
        };
        at += count;
    }
    at
}

// Reads standard input to its end, or until 7,260 bytes are kept, one more than the longest capture has, and writes the
// line of what was kept to standard output.
pub fn report<R: Input + Print>(rt: &R) -> std::io::Result<()> {
    let mut input = [0u8; 7260];
    let kept = read_full(&mut rt.reader(), &mut input);
    let mut line = [0u8; 544];
    let size = report_line(&input[..kept], &mut line);
    rt.write_all(&line[..size])
}
