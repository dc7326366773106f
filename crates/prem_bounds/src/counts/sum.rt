// Sums and products that are told up to 2^32.
ghost use Rattle.std.specs.Prelude.{◌≡◌, ◌+◌, ◌*◌};
ghost use Rattle.prem_bounds.specs.Counts.Count.{clipped};

/// A count from here on is only told to be large.
const ENOUGH: u64 = 1 << 32;

/// A number, told up to 2^32.
pub fn clip(a: u64) -> u64
    ensures { result ≡ clipped a }
{
    a.min(ENOUGH)
}

/// A sum, told up to 2^32.
pub fn plus(a: u64, b: u64) -> u64
    ensures { result ≡ clipped (a + b) }
{
    a.saturating_add(b).min(ENOUGH)
}

/// A product, told up to 2^32.
pub fn times(n: u32, a: u64) -> u64
    ensures { result ≡ clipped (n * a) }
{
    u64::from(n).saturating_mul(a).min(ENOUGH)
}
