// The fields of a capture: their tags, and the head that opens each.
ghost use Rattle.std.specs.Prelude.{◌≡◌, ◌<◌};
ghost use Rattle.capture.specs.Parts.{head_of};

// The field of the message's length.
pub const LENGTH: u8 = 1;
// The field of the marks, one byte a sub-packet.
pub const MARKS: u8 = 2;
// The field of one sub-packet's 24 values.
pub const VALUES: u8 = 3;

// The three bytes before a field's value: its tag and its length, the high byte first.
pub fn head(tag: u8, size: usize) -> [u8; 3]
    requires { size < 65536 }
    ensures { result ≡ head_of tag size }
{
    let [high, low] = (size as u16).to_be_bytes();
    [tag, high, low]
}
