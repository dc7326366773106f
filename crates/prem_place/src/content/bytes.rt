// Words and globals as bytes.
ghost use Rattle.std.specs.Prelude.{◌≡◌, ◌≤◌, IfOk, take};
ghost use Rattle.std.specs.Int.{w32, to_le_bytes};
ghost use Rattle.std.specs.List.{flat_map};
ghost use Rattle.prem_syntax.specs.SyntaxOf.{global_of};
ghost use Rattle.prem_layout.specs.Parts.{element_size};
ghost use Rattle.prem_layout.specs.Image.{global_bytes};

use prem_syntax::{Global, Ty};
use prem_tree::initial_words;
use std::alloc::{AllocError, Global as Allocator};

/// The bytes of words, the lowest byte of each first.
pub fn bytes_of(alloc: Allocator, words: &[u32]) -> Result<Vec<u8>, AllocError>
    ensures { IfOk result (λ bytes. bytes.items ≡ flat_map (to_le_bytes w32) words.now) }
{
    let mut bytes = Vec::new(alloc);
    for word in words {
        bytes.extend_from_slice(&word.to_le_bytes())?;
    }
    Ok(bytes)
}

/// The low bytes of words, so many of each.
fn low_bytes_of(alloc: Allocator, words: &[u32], size: usize) -> Result<Vec<u8>, AllocError>
    requires { size ≤ 4 }
    ensures { IfOk result (λ bytes. bytes.items ≡ flat_map (λ w. take size (to_le_bytes w32 w)) words.now) }
{
    let mut bytes = Vec::new(alloc);
    for word in words {
        let all = word.to_le_bytes();
        bytes.extend_from_slice(&all[..size])?;
    }
    Ok(bytes)
}

/// The bytes of an element of a type.
fn element_size(ty: Ty) -> usize
    ensures size { result ≡ element_size ty }
    ensures small { result ≤ 4 }
{
    match ty {
        Ty::Short | Ty::Ushort => 2,
        Ty::Schar | Ty::Uchar => 1,
        Ty::Void | Ty::Int | Ty::Unsigned => 4,
    }
}

/// The bytes of a global at the start of a run.
pub fn global_bytes(alloc: Allocator, g: &Global) -> Result<Vec<u8>, AllocError>
    ensures { IfOk result (λ bytes. bytes.items ≡ global_bytes (global_of g.now)) }
{
    let words = initial_words(alloc, g)?;
    low_bytes_of(alloc, &words, element_size(g.ty))
}
