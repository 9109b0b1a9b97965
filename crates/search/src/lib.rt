// The search: of all strings of n bits the nearest to the values heard, and what it costs.
// Rows of 64 remaining costs go backward in time, one decision a state and step is kept, and a walk goes forward
// through the decisions.
#![tactic(auto)]

ghost use Rattle.std.specs.Prelude.{Bool, map, ◌++◌, ◌≡◌, ◌+◌, ◌-◌, ◌*◌, ◌≤◌, length, drop};
ghost use Rattle.bits.specs.Bits.{bit};
ghost use Rattle.rows.specs.Rows.{Low};
ghost use Rattle.search.specs.Search.{Turn, Spread, Leveled, Heard, Filled, last_row, follow, Found};

// The rows of decisions: 64 words for each sixteen moments, of which there are at most 2,072.
const KEPT: usize = 130;

// One step back in time, against the three values of the step: the row before it; the decisions go into the 64 words.
fn turn(row: [u16; 64], a: u8, b: u8, c: u8, kept: &mut [u16; 64]) -> [u16; 64]
    requires { Low row }
    ensures { Turn a b c row kept.old result kept.new }
{
    let weighed = step::weigh(a, b, c);
    let moves = step::sums(row, weighed);
    step::choices(moves, kept, 0);
    step::minima(moves)
}

// A row and what was taken off its costs.
#[derive(Clone, Copy)]
pub struct Level {
    pub row: [u16; 64],
    pub off: u32,
}

// The row, lowered at every 64th moment, so that its costs stay within 15 bits.
fn leveled(row: [u16; 64], off: u32, t: usize) -> Level
    requires { Spread row off }
    ensures { Leveled row off t result.row result.off }
{
    if t % 64 != 0 {
        return Level { row, off };
    }
    let by = row[0].saturating_sub(2304);
    Level {
        row: step::lowered(row, by),
        off: off + u32::from(by),
    }
}

// The costs of the moment after the last: a state other than 0 there costs as much as six steps can.
fn last_row() -> [u16; 64]
    ensures { result ≡ last_row }
{
    let mut row = [2304u16; 64];
    row[0] = 0;
    row
}

// Keeps every decision of n steps and the six that follow, sixteen moments in a word, and gives the cost of the nearest
// string. The bits are not written here, so that n is told.
fn fill(values: &[u8], n: usize, kept: &mut [[u16; 64]; KEPT]) -> u32
    requires { Heard values.now n }
    ensures { Filled values.now n kept.new result }
{
    let mut level = Level {
        row: last_row(),
        off: 0,
    };
    for t in (0..n + 6).rev() {
        let least = turn(
            level.row,
            values[3 * t],
            values[3 * t + 1],
            values[3 * t + 2],
            &mut kept[t / 16],
        );
        level = leveled(least, level.off, t);
    }
    u32::from(level.row[0]) + level.off
}

// Walks forward through the decisions from state 0 and writes the bits that are taken. A place is where a state's
// decision stands.
fn walk(kept: &[[u16; 64]; KEPT], bits: &mut [u8])
    requires { length bits.old ≤ 2066 }
    ensures { bits.new ≡ map bit (follow kept.now (length bits.old) 0 0) }
{
    let mut place = 0;
    for (t, bit) in bits.iter_mut().enumerate() {
        let word = kept[t / 16][place];
        let b = (word >> (t % 16)) % 2;
        *bit = b as u8;
        place = place % 32 % 2 * 32 + place % 32 / 2 + usize::from(b) * 16;
    }
}

// The nearest string of n bits to the values of its coded bits, as the coder took it, one byte a bit, and its cost.
// Bytes of bits from n on are kept: what is promised of them (docs/PROMISES.md names it) needs n beside the bits.
pub fn search(values: &[u8], n: usize, bits: &mut [u8]) -> u32
    requires heard { Heard values.now n }
    requires n_in_bounds { n ≤ length bits.old }
    ensures { Found values.now n bits.old bits.new result }
{
    let mut kept = [[0u16; 64]; KEPT];
    let cost = fill(values, n, &mut kept);
    walk(&kept, &mut bits[..n]);
    cost
}
