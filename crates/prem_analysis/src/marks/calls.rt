// The functions that steps call.
ghost use Rattle.std.specs.Prelude.{◌≡◌, ◌++◌, map, IfOk, OnOk};
ghost use Rattle.prem_analysis.specs.Marks.Called.{called, list_called};

use prem_tree::resolve::{Routine, Step};
use std::alloc::{AllocError, Global};

/// Puts the functions that a step calls behind others.
#[cycle(calling)]
fn add_called(step: &Step, calls: &mut Vec<usize>) -> Result<(), AllocError>
    ensures { OnOk result (calls.new.items ≡ calls.old.items ++ called step.now) }
{
    match step {
        Step::Block { body } => {
            add_all_called(body.items(), calls)?;
            Ok(())
        }
        Step::SetLocal { .. }
        | Step::SetScalar { .. }
        | Step::SetElement { .. }
        | Step::Output { .. }
        | Step::Input { .. } => Ok(()),
        Step::If { taken, other, .. } => {
            add_called(taken, calls)?;
            add_called(other, calls)
        }
        Step::For { body, .. } => add_called(body, calls),
        Step::While { body, .. } => add_called(body, calls),
        Step::Call { callee, .. } => {
            calls.push(*callee)?;
            Ok(())
        }
    }
}

#[cycle(calling)]
fn add_all_called(steps: &[Step], calls: &mut Vec<usize>) -> Result<(), AllocError>
    ensures { OnOk result (calls.new.items ≡ calls.old.items ++ list_called steps.now) }
{
    for s in steps {
        add_called(s, calls)?;
    }
    Ok(())
}

/// The functions that a function calls.
fn callees(alloc: Global, f: &Routine) -> Result<Vec<usize>, AllocError>
    ensures { IfOk result (λ calls. calls.items ≡ called f.now.body) }
{
    let mut calls = Vec::new(alloc);
    add_called(&f.body, &mut calls)?;
    Ok(calls)
}

/// The functions that each function calls.
pub fn callee_table(alloc: Global, fs: &[Routine]) -> Result<Vec<Vec<usize>>, AllocError>
    ensures { IfOk result (λ table. map (λ cs. cs.items) table.items ≡ map (λ f. called f.body) fs.now) }
{
    let mut table = Vec::new(alloc);
    for f in fs {
        table.push(callees(alloc, f)?)?;
    }
    Ok(table)
}
