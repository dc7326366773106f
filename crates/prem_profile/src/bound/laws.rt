// What holds of all bills.
ghost use Rattle.prem_profile.specs.Bound.Booked.{BillRowsAddUp, SetBillsAddUp};
ghost use Rattle.prem_profile.specs.Bound.Gathered.{BillsAreGathered};
ghost use Rattle.prem_profile.specs.Bound.Laws.{BillsAddUp};
ghost use Rattle.prem_profile.specs.Bound.Profile.{BoundsAddUp};

/// The bill of a job comes to what it takes at most, told up to 2^41, wherever the parts of its task stand, and whatever is stated of its marked functions.
#[tactic(auto, using(crate::proofs::BoundLemmas::Tasks::bills_add_up))]
pub fn bills_add_up()
    ensures { BillsAddUp }
{}

/// A gathered bill has one item for each spot, and comes to what the bill comes to, told up to 2^41: in all, and in each row of a profile.
pub fn bills_are_gathered()
    ensures { BillsAreGathered }
{}

/// What all rows of a profile have of a bill comes to the bill: the instructions, the cycles, the misses, and the lines that are written back.
#[tactic(auto, using(crate::proofs::BoundLemmas::Booked::bill_rows_add_up))]
pub fn bill_rows_add_up()
    ensures { BillRowsAddUp }
{}

/// Of each task of a set the bill comes to what a job of it takes at most, told up to 2^41.
#[tactic(auto, using(crate::proofs::BoundLemmas::Booked::set_bills_add_up))]
pub fn set_bills_add_up()
    ensures { SetBillsAddUp }
{}

/// The profile of a set's bound keeps to the grammar of callgrind's format, and its lines add up to what one job of each task takes at most: told up
/// to 2^41, and exactly where each is at most 2^40.
pub fn bounds_add_up()
    ensures { BoundsAddUp }
{}
