// One step of the search, on rows of 64 costs passed and returned by value: the costs at one moment from those at the
// next, and what each state would take. Each function says only what it does with the numbers it is given; that the
// rows are remaining costs is shown above, in `search`.
#![tactic(auto)]

ghost use Rattle.std.specs.Prelude.{true, false, [], ◌∷◌, ◌≡◌, ◌+◌, ◌≤◌, min, ltb, length};
ghost use Rattle.bits.specs.Bits.{bit};
ghost use Rattle.rows.specs.Rows.{Opposes, Six, Arranged, Split, Halves, Low, Summed, Within, Least, Chosen};
ghost use Rattle.rows.specs.Rows.{AtLeast, Lowered, pairs_of};

// What a value has against a coded bit that is 0, and against one that is 1.
#[tactic(auto, unfolding(coder::specs::Cost::weight, coder::specs::Cost::against))]
fn against(v: u8) -> (u16, u16)
    ensures zero { Opposes false v result.0 }
    ensures one { Opposes true v result.1 }
{
    let v = i16::from(v.cast_signed());
    (v.max(0) as u16, (-v).max(0) as u16)
}

// What a step costs: that of taking 0 in the first 16 even states, what is left of the whole by taking 0 in the other
// 16, and the weight of all three values. Two rows and not pairs, since the processor takes eight costs of a row at
// once.
#[derive(Clone, Copy)]
pub struct Weighed {
    pub low: [u16; 16],
    pub high: [u16; 16],
    pub all: u16,
}

// Four sums of what the values have against three coded bits, each where 001's words put it. Each bit of a name is the
// coded bit of one word; the other four sums are what is left of the whole.
fn arranged(a: (u16, u16), b: (u16, u16), c: (u16, u16)) -> Weighed
    requires { Six a.0 a.1 b.0 b.1 c.0 c.1 }
    ensures { Arranged a.0 a.1 b.0 b.1 c.0 c.1 result.low result.high result.all }
{
    let s000 = a.0 + b.0 + c.0;
    let s011 = a.0 + b.1 + c.1;
    let s101 = a.1 + b.0 + c.1;
    let s110 = a.1 + b.1 + c.0;
    let s111 = a.1 + b.1 + c.1;
    let low = [
        s000, s011, s101, s110, s101, s110, s000, s011, s011, s000, s110, s101, s110, s101, s011,
        s000,
    ];
    let high = [
        s011, s000, s110, s101, s110, s101, s011, s000, s000, s011, s101, s110, s101, s110, s000,
        s011,
    ];
    Weighed {
        low,
        high,
        all: s000 + s111,
    }
}

// The costs of one step against its three values.
pub fn weigh(a: u8, b: u8, c: u8) -> Weighed
    ensures { Split (a ∷ b ∷ c ∷ []) result.low result.high result.all }
{
    arranged(against(a), against(b), against(c))
}

// What taking 0 and taking 1 costs in each state, with all that follows: the even states in the first 32 places, the
// odd ones in the others. Two rows and not pairs, since the processor takes eight costs of a row at once.
#[derive(Clone, Copy)]
pub struct Moves {
    pub zero: [u16; 64],
    pub one: [u16; 64],
}

// The costs of both moves of every state, from the row of the next moment and what the step costs.
pub fn sums(row: [u16; 64], step: Weighed) -> Moves
    requires low { Low row }
    requires halves { Halves step.low step.high step.all }
    ensures { Summed row (pairs_of step.low step.high step.all) step.all result.zero result.one }
{
    // Read from `step` in the loop they make the search slower, measured: 20.5 against 18.8 ns a step.
    let Weighed { low, high, all } = step;
    let mut zero = [0u16; 64];
    let mut one = [0u16; 64];
    for j in 0..16 {
        let near = low[j];
        let far = all - near;
        zero[j] = row[j] + near;
        zero[j + 32] = row[j] + far;
        one[j] = row[j + 32] + far;
        one[j + 32] = row[j + 32] + near;
        let k = j + 16;
        let left = high[j];
        let spent = all - left;
        zero[k] = row[k] + spent;
        zero[k + 32] = row[k] + left;
        one[k] = row[k + 32] + left;
        one[k + 32] = row[k + 32] + spent;
    }
    Moves { zero, one }
}

// 1 where taking 1 costs less than taking 0. Compared as signed numbers, for which the processor has an instruction on
// eight at a time. As unsigned ones the search is slower, measured: 22.3 against 18.8 ns a step.
fn choice(zero: u16, one: u16) -> u16
    requires { (one ≤ 32767) × (zero ≤ 32767) }
    ensures { result ≡ bit (ltb one zero) }
{
    u16::from((one as i16) < (zero as i16))
}

// The row of the cheaper moves.
pub fn minima(m: Moves) -> [u16; 64]
    ensures { Least 32 m.zero m.one result }
{
    let mut next = [0u16; 64];
    for j in 0..32 {
        next[2 * j] = m.zero[j].min(m.one[j]);
        next[2 * j + 1] = m.zero[j + 32].min(m.one[j + 32]);
    }
    next
}

// The decisions kept in the 64 words from a place on, moved up by one bit, with this step's in the lowest. The others
// are kept.
pub fn choices(m: Moves, kept: &mut [u16], place: usize)
    requires within { Within m.zero m.one }
    requires place_in_bounds { place + 64 ≤ length kept.old }
    ensures { Chosen 64 m.zero m.one kept.old place kept.new }
{
    for p in 0..64 {
        kept[place + p] = kept[place + p] % 32768 * 2 + choice(m.zero[p], m.one[p]);
    }
}

// The row with the same taken off every cost.
pub fn lowered(mut row: [u16; 64], by: u16) -> [u16; 64]
    requires { AtLeast row by }
    ensures { Lowered 64 row by result }
{
    for cost in row.iter_mut() {
        *cost -= by;
    }
    row
}
