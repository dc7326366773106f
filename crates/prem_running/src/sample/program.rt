// The program of a task.
ghost use Rattle.std.specs.Prelude.{◌≡◌, ◌++◌, IfOk, OnOk, codes, decimal, string_bytes};
ghost use Rattle.std.specs.List.{flat_map, join_by};
ghost use Rattle.prem_list.specs.Sequence.{items_of};
ghost use Rattle.prem_running.specs.Sample.Trace.{program_text};

use prem_list::Sequence;
use std::alloc::{AllocError, Global};

/// What stands before the coefficients.
const BEGIN: &str = "short coef[16] = {";

/// What stands behind the coefficients.
const FILTER: &str = "};
short sample[80];
int result[64];
PREDICTABLE(500000) REGION(coef, 0, 15) REGION(sample, 0, 79) REGION(result, 0, 63)
void fir(void) {
  int i = 0;
  int j = 0;
  int s = 0;
  for (i = 0; i < 64; i++) {
    s = 0;
    for (j = 0; j < 16; j++) { s += coef[j] * sample[i + j]; }
    result[i] = s;
  }
}
void job(void) {
  int i = 0;
  int x = 0;
  for (i = 0; i < 80; i++) { x = in(); sample[i] = x; }
  fir();
  for (i = 0; i < 64; i++) { out(result[i]); }
}
";

/// A number behind others.
fn further(alloc: Global, n: u32) -> Result<String, AllocError>
    ensures { IfOk result (λ s. string_bytes s ≡ codes ", " ++ decimal n) }
{
    format!(in alloc; ", {n}")
}

/// Numbers behind others.
fn push_further(alloc: Global, text: &mut Vec<u8>, numbers: &[u32]) -> Result<(), AllocError>
    ensures { OnOk result (text.new.items ≡ text.old.items ++ flat_map (λ n. codes ", " ++ decimal n) numbers.now) }
{
    'numbers: for number in numbers {
        text.extend_from_slice(further(alloc, *number)?.as_bytes())?;
    }
    Ok(())
}

/// A number in decimal.
fn digits(alloc: Global, n: u32) -> Result<String, AllocError>
    ensures { IfOk result (λ s. string_bytes s ≡ decimal n) }
{
    format!(in alloc; "{n}")
}

/// Numbers with commas between them.
fn push_numbers(alloc: Global, text: &mut Vec<u8>, numbers: &[u32]) -> Result<(), AllocError>
    ensures { OnOk result (text.new.items ≡ text.old.items ++ join_by decimal (codes ", ") numbers.now) }
{
    match numbers {
        [first, rest @ ..] => {
            text.extend_from_slice(digits(alloc, *first)?.as_bytes())?;
            push_further(alloc, text, rest)
        }
        [] => Ok(()),
    }
}

/// The text up to the coefficients, and these.
fn coefficients_text(alloc: Global, coefficients: &[u32]) -> Result<Vec<u8>, AllocError>
    ensures { IfOk result (λ text. text.items ≡ codes "short coef[16] = {" ++ join_by decimal (codes ", ") coefficients.now) }
{
    let mut text = BEGIN.as_bytes().to_vec(alloc)?;
    push_numbers(alloc, &mut text, coefficients)?;
    Ok(text)
}

/// The program of a filter with these coefficients. It fails only for want of memory.
pub fn program_text(alloc: Global, coefficients: &[u32]) -> Result<Sequence<u8>, AllocError>
    ensures { IfOk result (λ text. items_of text ≡ program_text coefficients.now) }
{
    let mut text = coefficients_text(alloc, coefficients)?;
    text.extend_from_slice(FILTER.as_bytes())?;
    Ok(Sequence::from_vec(text))
}
