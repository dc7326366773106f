// Words of the command line.
ghost use Rattle.std.specs.Prelude.{◌≡◌};
ghost use Rattle.prem_answer.specs.Tool.{is_file};

/// Whether a word may name a file: it doesn't begin as an option does.
pub fn is_file(word: &str) -> bool
    ensures { result ≡ is_file word.now }
{
    match word.as_bytes() {
        [] => true,
        [first, ..] => *first != b'-',
    }
}
