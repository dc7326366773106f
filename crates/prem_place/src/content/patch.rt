// Bytes that are put over others.
ghost use Rattle.std.specs.Prelude.{◌≡◌, ◌+◌, ◌≤◌, length};
ghost use Rattle.prem_layout.specs.Image.{patched};

/// Puts bytes over those from a place on.
pub fn patch(content: &mut [u8], at: usize, bytes: &[u8])
    requires { at + length bytes.now ≤ length content.old }
    ensures { content.new ≡ patched at bytes.now content.old }
{
    content[at..at + bytes.len()].copy_from_slice(bytes);
}
