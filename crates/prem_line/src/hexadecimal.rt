// Words as hexadecimal digits.
ghost use Rattle.std.specs.Prelude.{◌≡◌, ◌<◌};
ghost use Rattle.prem_line.specs.Hexadecimal.{hex_digit, hex_word};

/// A hexadecimal digit, with small letters.
fn hex_digit(n: u32) -> u8
    requires { n < 16 }
    ensures { result ≡ hex_digit n }
{
    if n < 10 {
        b'0' + n as u8
    } else {
        b'W' + n as u8
    }
}

/// A word as eight hexadecimal digits.
#[tactic(auto, unfolding(crate::specs::Hexadecimal::hex_word))]
pub fn hex_word(n: u32) -> [u8; 8]
    ensures { result ≡ hex_word n }
{
    [
        hex_digit(n / (1 << 28) % 16),
        hex_digit(n / (1 << 24) % 16),
        hex_digit(n / (1 << 20) % 16),
        hex_digit(n / (1 << 16) % 16),
        hex_digit(n / (1 << 12) % 16),
        hex_digit(n / (1 << 8) % 16),
        hex_digit(n / (1 << 4) % 16),
        hex_digit(n % 16),
    ]
}
