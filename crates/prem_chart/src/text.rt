// Names in a text of XML.
ghost use Rattle.std.specs.Prelude.{◌≡◌, ◌++◌, OnOk};
ghost use Rattle.prem_chart.specs.Pieces.{escaped, spelled};

use std::alloc::AllocError;

/// A byte of a name, as XML has it.
fn push_spelled(text: &mut Vec<u8>, byte: u8) -> Result<(), AllocError>
    ensures { OnOk result (text.new.items ≡ text.old.items ++ spelled byte) }
{
    if byte == 38 {
        text.extend_from_slice(b"&amp;")
    } else if byte == 60 {
        text.extend_from_slice(b"&lt;")
    } else if byte == 62 {
        text.extend_from_slice(b"&gt;")
    } else if byte == 34 {
        text.extend_from_slice(b"&quot;")
    } else if 32 <= byte && byte <= 126 {
        text.extend_from_slice(&[byte])
    } else {
        text.extend_from_slice(b"?")
    }
}

/// A name, as XML has it.
pub fn push_escaped(text: &mut Vec<u8>, name: &[u8]) -> Result<(), AllocError>
    ensures { OnOk result (text.new.items ≡ text.old.items ++ escaped name.now) }
{
    'bytes: for byte in name {
        push_spelled(text, *byte)?;
    }
    Ok(())
}
