// Names of 1 to 64 bytes.
ghost use Rattle.std.specs.Prelude.{◌≡◌, ◌≤◌, ◌<◌, ◌↔◌, ◌⊎◌, IsNone, IfOk, IfSome, length, vec_len};

use std::alloc::{AllocError, Global};

/// A name of 1 to 64 bytes.
#[derive(Debug, PartialEq, Eq, Drop)]
pub struct Name {
    text: Vec<u8>,
    ghost some: { 0 < vec_len text },
    ghost within: { vec_len text ≤ 64 },
}

impl Name {
    ghost use Rattle.prem_syntax.specs.Name.{name_bytes};

    /// The greatest number of bytes of a name.
    pub const LIMIT: usize = 64;

    /// The name of these bytes, or none where there aren't 1 to 64 of them. It fails only for want of memory.
    pub fn new(alloc: Global, bytes: &[u8]) -> Result<Option<Name>, AllocError>
        ensures none { IfOk result (λ found. IsNone found ↔ ((length bytes.now ≡ 0) ⊎ (64 < length bytes.now))) }
        ensures holds { IfOk result (λ found. IfSome found (λ name. name_bytes name ≡ bytes.now)) }
    {
        if bytes.is_empty() || bytes.len() > Name::LIMIT {
            return Ok(None);
        }
        let text = bytes.to_vec(alloc)?;
        Ok(Some(Name { text }))
    }

    /// The bytes of the name.
    pub fn bytes(&self) -> &[u8]
        ensures bytes { result.now ≡ name_bytes self.now }
        ensures some { 0 < length result.now }
        ensures within { length result.now ≤ 64 }
    {
        self.text.as_slice()
    }
}
