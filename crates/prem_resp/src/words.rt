// The words of the command line.
ghost use Rattle.std.specs.Prelude.{◌≡◌, IfSome, IsNone, None, Some, map, string_bytes};
ghost use Rattle.prem_resp.specs.Stages.{asked_of};

use prem_answer::is_file;

/// The file that the words name, or none where they are other ones.
pub(crate) fn asked_of(words: &[String]) -> Option<&str>
    ensures some { IfSome result (λ name. asked_of (map string_bytes words.now) ≡ Some name.now) }
    ensures none { IsNone result → asked_of (map string_bytes words.now) ≡ None }
{
    match words {
        [word] => {
            if is_file(word) {
                Some(word.as_str())
            } else {
                None
            }
        }
        [] | [_, _, ..] => None,
    }
}
