// All functions, from the last to the first.
ghost use Rattle.std.specs.Prelude.{◌≡◌, map, IfOk};
ghost use Rattle.prem_annotating.specs.Inferred.{ranged_routines};
ghost use Rattle.prem_analysis.specs.Functions.{plain_routine, AllRanged};
ghost use Rattle.prem_annotate.specs.Ranges.Outlook.{outlook_of, outlook};

use crate::ranges::outlook::{Outlook, regard};
use crate::ranges::slots::{add_all, empty_rows};
use prem_tree::resolve::Routine;
use std::alloc::{AllocError, Global};

/// What is found of all functions, in the order of the text, each with the RANGEs that its parameters have, or else with the
/// least ranges around what all calls behind it give them.
pub fn infer(alloc: Global, routines: &[Routine]) -> Result<Vec<Outlook>, AllocError>
    requires { AllRanged routines.now }
    ensures { IfOk result (λ all. map outlook_of all.items ≡ map outlook (ranged_routines 0 (map plain_routine routines.now))) }
{
    let mut rows = empty_rows(alloc, routines)?;
    let mut all = Vec::new(alloc);
    let mut n = routines.len();
    while n > 0 {
        n -= 1;
        let found = regard(alloc, &rows[n], &routines[n])?;
        add_all(&mut rows, &found.sight.arguments);
        all.push(found)?;
    }
    all.reverse();
    Ok(all)
}
