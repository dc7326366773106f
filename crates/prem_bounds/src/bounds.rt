// The bounds of marked functions and of jobs.
ghost use Rattle.std.specs.Prelude.{◌≡◌, ◌<◌, ◌≤◌, ◌^◌, length, map, IfOk, OnOk, OnErr};
ghost use Rattle.prem_list.specs.Sequence.{items_of};
ghost use Rattle.prem_plant.specs.Ranges.{IsPlant};
ghost use Rattle.prem_isa.specs.Decode.{cost_of};
ghost use Rattle.prem_asm.specs.PiecesOf.{pieces_of};
ghost use Rattle.prem_layout.specs.Bounds.{bound_of, costs_of, first_call, job_bound_of, marked_weight, marked_weights, job_weights, stub_calling, stub_number, stub_weight, weight_at};
ghost use Rattle.prem_split.specs.PlanOf.{plan_of};
ghost use Rattle.prem_bounds.specs.TableOf.{IsTable, listed, table_of};
ghost use Rattle.prem_bounds.specs.Told.{Tells};

use crate::scale::{Scale, called, plus};
use crate::table::{CodeTable, costs, weights_listed};
use crate::weights::weight_in;
use prem_asm::{Piece, Sequence};
use prem_plant::Plant;
use prem_split::IntervalPlan;

/// A bound passes 2^40.
#[derive(Clone, Copy, Debug, PartialEq, Eq)]
pub struct BoundTooLarge;

/// What the code of each stub costs on its dearest path, with what it calls.
pub fn stub_costs(table: &CodeTable) -> [u64; 256]
    requires { IsTable table.now }
    ensures { Tells 256 result (stub_weight cost_of (length (table_of table.now).code) (table_of table.now).stubs (costs_of (table_of table.now))) }
{
    let stubs = table.stubs.items();
    if stubs.is_empty() {
        // nothing asks for what functions cost
        return [0; 256];
    }
    let code = table.code.items();
    let scale = Scale {
        access: 0,
        other: 0,
        count: code.len() as u32,
        functions: costs(table),
        stubs: [0; 256],
    };
    weights_listed(stubs, &scale)
}

/// The bound of the marked function that has the stub number k, and touches so many lines, by what the stubs of a task's code cost.
pub fn bound_by(
    stubs: &[u64; 256],
    k: usize,
    table: &CodeTable,
    lines: u64,
    p: &Plant,
) -> Result<u64, BoundTooLarge>
    requires table { IsTable table.now }
    requires costs { Tells 256 stubs.now (stub_weight cost_of (length (table_of table.now).code) (table_of table.now).stubs (costs_of (table_of table.now))) }
    requires plant { IsPlant p.now }
    requires stub { k < length (items_of table.now.stubs) }
    ensures bound { IfOk result (λ bound. bound ≡ bound_of p.now (table_of table.now) k lines) }
    ensures small { OnOk result (bound_of p.now (table_of table.now) k lines ≤ 2 ^ 40) }
    ensures large { OnErr result (2 ^ 40 < bound_of p.now (table_of table.now) k lines) }
{
    let _table = table;
    let path = stubs[k].saturating_sub(3);
    let misses = lines.saturating_mul(u64::from(p.fill + p.back));
    let bound = path.saturating_add(misses);
    if bound > 1 << 40 {
        Err(BoundTooLarge)
    } else {
        Ok(bound)
    }
}

/// The part that pieces call first, those within choices and loops aside.
fn first_call(pieces: &[Piece]) -> Option<u32>
    ensures { result ≡ first_call (pieces_of pieces.now) }
{
    for piece in pieces {
        if let Piece::CallTo { part, .. } = piece {
            return Some(*part);
        }
    }
    None
}

/// The number of the first of some stubs that calls a part, or how many they are.
fn stub_calling(part: u32, stubs: &[Sequence<Piece>]) -> usize
    ensures { result ≡ stub_calling part (listed stubs.now) }
{
    for (k, stub) in stubs.iter().enumerate() {
        if first_call(stub.items()) == Some(part) {
            return k;
        }
    }
    stubs.len()
}

/// The bound of a marked function that touches so many lines. Its stub is the first that calls it.
pub fn bound(
    plan: &IntervalPlan,
    code: &CodeTable,
    lines: u64,
    p: &Plant,
) -> Result<u64, BoundTooLarge>
    requires table { IsTable code.now }
    requires plant { IsPlant p.now }
    requires stub { stub_number (table_of code.now) (plan_of plan.now) < length (items_of code.now.stubs) }
    ensures bound { IfOk result (λ bound. bound ≡ bound_of p.now (table_of code.now) (stub_number (table_of code.now) (plan_of plan.now)) lines) }
    ensures small { OnOk result (bound_of p.now (table_of code.now) (stub_number (table_of code.now) (plan_of plan.now)) lines ≤ 2 ^ 40) }
    ensures large { OnErr result (2 ^ 40 < bound_of p.now (table_of code.now) (stub_number (table_of code.now) (plan_of plan.now)) lines) }
{
    let k = stub_calling(1 + u32::from(plan.function), code.stubs.items());
    bound_by(&stub_costs(code), k, code, lines, p)
}

/// What a call of a marked function weighs behind its jump.
fn marked_weight(plan: &IntervalPlan, p: &Plant) -> u64
    requires { IsPlant p.now }
    ensures weight { result ≡ marked_weight p.now (plan_of plan.now) }
    ensures small { result ≤ 2 ^ 41 }
{
    let miss = u64::from(p.fill + p.back);
    let stated = plan.stated;
    1 + miss + u64::from(p.switch) + u64::from(stated) + u64::from(p.switch) + (2 + miss)
}

/// What a call of each marked function weighs behind its jump.
fn marked_weights(plans: &[IntervalPlan], p: &Plant) -> [u64; 256]
    requires plant { IsPlant p.now }
    requires count { length plans.now ≤ 256 }
    ensures { Tells 256 result (marked_weights p.now (map plan_of plans.now)) }
{
    let mut weights = [0; 256];
    for k in 0..plans.len() {
        weights[k] = marked_weight(&plans[k], p);
    }
    weights
}

/// What is known of weights outside predictable intervals, once those of all functions are.
fn job_scale(plans: &[IntervalPlan], table: &CodeTable, p: &Plant) -> Scale
    requires table { IsTable table.now }
    requires plant { IsPlant p.now }
    requires count { length plans.now ≤ 256 }
    ensures functions { Tells 256 result.functions (weight_at (job_weights p.now (map plan_of plans.now) (table_of table.now))) }
    ensures stubs { Tells 256 result.stubs (marked_weights p.now (map plan_of plans.now)) }
    ensures count { result.count ≡ length (items_of table.now.code) }
{
    let miss = u64::from(p.fill + p.back);
    let stubs = marked_weights(plans, p);
    let code = table.code.items();
    let count = code.len() as u32;
    let mut functions = [0; 256];
    for n in 0..code.len() {
        let scale = Scale {
            access: 2 * miss,
            other: miss,
            count,
            functions,
            stubs,
        };
        functions[n] = weight_in(code[n].items(), &scale);
    }
    Scale {
        access: 2 * miss,
        other: miss,
        count,
        functions,
        stubs,
    }
}

/// The bound of a job.
pub fn job_bound(plans: &[IntervalPlan], table: &CodeTable, p: &Plant) -> Result<u64, BoundTooLarge>
    requires table { IsTable table.now }
    requires plant { IsPlant p.now }
    requires count { length plans.now ≤ 256 }
    ensures bound { IfOk result (λ bound. bound ≡ job_bound_of p.now (map plan_of plans.now) (table_of table.now)) }
    ensures small { OnOk result (job_bound_of p.now (map plan_of plans.now) (table_of table.now) ≤ 2 ^ 40) }
    ensures large { OnErr result (2 ^ 40 < job_bound_of p.now (map plan_of plans.now) (table_of table.now)) }
{
    let scale = job_scale(plans, table, p);
    let miss = u64::from(p.fill + p.back);
    let job = called(1 + u32::from(table.job), &scale);
    let bound = plus(u64::from(p.switch) + (2 + miss) + (1 + miss), job);
    if bound > 1 << 40 {
        Err(BoundTooLarge)
    } else {
        Ok(bound)
    }
}
