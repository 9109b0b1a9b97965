// Runs of bytes stored in a lent buffer, one after another.
#![tactic(auto)]

ghost use Rattle.std.specs.Prelude.{◌+◌, ◌≤◌, length};
ghost use Rattle.buffers.specs.Buffers.{Appends};

// Stores the bytes from `at` on, and gives the place after them. The rest is kept. Byte by byte: the library's copy of
// a run of any length is a call of C's memcpy, and the archive needs memset alone.
pub fn copy_in(src: &[u8], out: &mut [u8], at: usize) -> usize
    requires { at + length src.now ≤ length out.old }
    ensures { Appends out.old at src.now out.new result }
{
    for (i, byte) in src.iter().enumerate() {
        out[at + i] = *byte;
    }
    at + src.len()
}
