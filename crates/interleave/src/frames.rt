// What goes together of a frame. A function that takes one of these asks nothing more of the sizes: who makes one has
// shown them.

ghost use Rattle.std.specs.Prelude.{◌≡◌, ◌*◌, ◌≤◌, length};
ghost use Rattle.interleave.specs.Interleave.{coded_bits, sub_packets};

// What was heard of a frame: a message's length, and a mark and 24 values for each of its sub-packets.
#[derive(Clone, Copy)]
pub struct Heard<'a> {
    pub l: usize,
    pub marks: &'a [u8],
    pub values: &'a [u8],
    pub ghost low: { 20 ≤ l },
    pub ghost high: { l ≤ 255 },
    pub ghost marked: { length marks.now ≡ sub_packets l },
    pub ghost valued: { length values.now ≡ 24 * sub_packets l },
}

// The coded bits of a message of l bytes.
#[derive(Clone, Copy)]
pub struct Coded<'a> {
    pub l: usize,
    pub bits: &'a [u8],
    pub ghost low: { 20 ≤ l },
    pub ghost high: { l ≤ 255 },
    pub ghost given: { coded_bits l ≤ length bits.now },
}
