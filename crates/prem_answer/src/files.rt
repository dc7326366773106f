// Files, each within its limit of bytes.
ghost use Rattle.std.specs.Prelude.{◌≡◌, ◌≤◌, IsErrOf};
ghost use Rattle.prem_io.specs.Counts.{Rose};
ghost use Rattle.prem_answer.specs.Stages.{Comes, IsRead, IsReadBy};

use crate::answer::{Halt, Telling, form_by, missing};
use prem_io::{Store, StoreFail};
use std::alloc::Global;

/// Reads a file of at most `limit` bytes. The work ends with `missing FILE` or `form FILE too-long` where there is no such file, or it
/// has more bytes.
pub fn read_file<S: Store>(
    alloc: Global,
    store: &mut S,
    name: &str,
    limit: usize,
) -> Result<Vec<u8>, Halt>
    ensures read { Comes (λ bytes. bytes.items) (IsRead (S.files store.old) limit name.now) result }
    ensures fault { IsErrOf result Halt.ReadFault → Rose (S.faults store.old) (S.faults store.new) }
    ensures later { S.faults store.old ≤ S.faults store.new }
    ensures same { S.files store.new ≡ S.files store.old }
{
    read_file_by(alloc, Telling::Whole, store, name, limit)
}

/// The same, where an answer tells so much of a file that has more bytes.
pub fn read_file_by<S: Store>(
    alloc: Global,
    telling: Telling,
    store: &mut S,
    name: &str,
    limit: usize,
) -> Result<Vec<u8>, Halt>
    ensures read { Comes (λ bytes. bytes.items) (IsReadBy telling (S.files store.old) limit name.now) result }
    ensures fault { IsErrOf result Halt.ReadFault → Rose (S.faults store.old) (S.faults store.new) }
    ensures later { S.faults store.old ≤ S.faults store.new }
    ensures same { S.files store.new ≡ S.files store.old }
{
    let mut bytes = Vec::new(alloc);
    match store.read_file(alloc, name, limit, &mut bytes) {
        Ok(()) => Ok(bytes),
        Err(StoreFail::Missing) => Err(Halt::Answered(missing(alloc, name)?)),
        Err(StoreFail::TooLong) => Err(Halt::Answered(form_by(alloc, telling, name, "too-long")?)),
        Err(StoreFail::Failed) => Err(Halt::ReadFault),
        Err(StoreFail::OutOfMemory) => Err(Halt::OutOfMemory),
    }
}
