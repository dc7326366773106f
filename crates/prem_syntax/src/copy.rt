// Copies of names.
ghost use Rattle.std.specs.Prelude.{◌≡◌, IfOk};
ghost use Rattle.prem_syntax.specs.Name.{name_bytes};

use crate::name::Name;
use std::alloc::{AllocError, Global};

/// A copy of a name. It fails only for want of memory.
pub fn copy_name(alloc: Global, name: &Name) -> Result<Name, AllocError>
    ensures { IfOk result (λ copy. name_bytes copy ≡ name_bytes name.now) }
{
    let Some(copy) = Name::new(alloc, name.bytes())? else {
        unreachable!()
    };
    Ok(copy)
}
