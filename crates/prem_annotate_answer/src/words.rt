// The words of the command line.
ghost use Rattle.std.specs.Prelude.{◌≡◌, IfSome, IsNone, None, Some, map, string_bytes};
ghost use Rattle.prem_annotate_answer.specs.Answers.{asked, asked_of};

use prem_answer::is_file;

/// The set and the task that the words name, or none where they are other ones.
pub fn asked_of(words: &[String]) -> Option<(&str, &str)>
    ensures some { IfSome result (λ named. asked_of (map string_bytes words.now) ≡ Some (asked named.0.now named.1.now)) }
    ensures none { IsNone result → asked_of (map string_bytes words.now) ≡ None }
{
    match words {
        [set, task] => {
            if is_file(set) {
                Some((set.as_str(), task.as_str()))
            } else {
                None
            }
        }
        [] | [_] | [_, _, _, ..] => None,
    }
}
