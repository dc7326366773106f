// The element with which a text begins.
ghost use Rattle.std.specs.Prelude.{◌≡◌, ◌≤◌, ◌<◌, ◌+◌, ◌-◌, ◌^◌, length};
ghost use Rattle.std.specs.List.{prefix_len};
ghost use Rattle.prem_lint.specs.Elements.{array, closes, deeper, element, is_name_byte, through};

/// Whether the bracket closes the first one, where so many are open.
fn closes(depth: usize, byte: u8) -> bool
    ensures { result ≡ closes depth byte }
{
    byte == b']' && depth <= 1
}

/// How many brackets are open behind a byte.
fn deeper(depth: usize, byte: u8) -> usize
    requires { depth < 2 ^ 64 - 1 }
    ensures same { result ≡ deeper depth byte }
    ensures step { result ≤ depth + 1 }
{
    if byte == b'[' {
        depth + 1
    } else if byte == b']' {
        depth.saturating_sub(1)
    } else {
        depth
    }
}

/// Up to the bracket that closes the first one.
fn through_bracket(text: &[u8]) -> &[u8]
    ensures { result.now ≡ through 0 text.now }
{
    let mut depth = 0;
    for n in 0..text.len() {
        if closes(depth, text[n]) {
            return &text[..n + 1];
        }
        depth = deeper(depth, text[n]);
    }
    text
}

/// Whether a name may have this byte.
fn is_name_byte(byte: u8) -> bool
    ensures { result ≡ is_name_byte byte }
{
    byte.is_ascii_alphanumeric() || byte == b'_'
}

/// The element with which a text begins.
pub(crate) fn element(text: &[u8]) -> &[u8]
    ensures { result.now ≡ element text.now }
{
    match text {
        [] => b"an element",
        [_, ..] => through_bracket(text),
    }
}

/// The array of the element with which a text begins.
pub(crate) fn array(text: &[u8]) -> &[u8]
    ensures { result.now ≡ array text.now }
{
    match text {
        [] => b"the array",
        [_, ..] => {
            let (name, _) = text.split_at(name_len(text));
            name
        }
    }
}

/// How many bytes of a name stand in front.
fn name_len(text: &[u8]) -> usize
    ensures len { result ≡ prefix_len is_name_byte text.now }
    ensures within { result ≤ length text.now }
{
    text.iter().take_while(|byte| is_name_byte(**byte)).count()
}
