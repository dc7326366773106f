// Counts that end at 2^32, and the frame of so many slots.
ghost use Rattle.std.specs.Prelude.{◌≡◌, ◌≤◌, ◌+◌, min};
ghost use Rattle.prem_gen.specs.Frame.FrameOf.{most, frame_bytes};

/// A sum of two counts.
pub fn capped_sum(a: u64, b: u64) -> u64
    requires a { a ≤ most }
    requires b { b ≤ most }
    ensures { result ≡ min (a + b) most }
{
    if a + b < 4294967296 {
        a + b
    } else {
        4294967296
    }
}

/// A length as a count.
pub fn capped_count(n: usize) -> u64
    ensures { result ≡ min n most }
{
    if n < 4294967296 { n as u64 } else { 4294967296 }
}

/// The bytes of a frame with so many slots behind the return address.
pub fn frame_bytes(slots: u64) -> u64
    requires { slots ≤ most }
    ensures { result ≡ frame_bytes slots }
{
    let bytes = 4 + 4 * slots;
    bytes + (16 - bytes % 16) % 16
}
