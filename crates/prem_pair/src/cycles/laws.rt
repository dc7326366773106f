// What every run of two cores keeps.
ghost use Rattle.std.specs.Prelude.{◌≡◌, ◌+◌, ℕ, List, true};
ghost use Rattle.prem_lru.specs.Entries.{ReplacementRule};
ghost use Rattle.prem_gate.specs.declared.request.Request.{Request};
ghost use Rattle.prem_cycle.specs.State.{Setup};
ghost use Rattle.prem_pair.specs.Cycles.Pair.{PairState, is_pair_over, pair_cycles};
ghost use Rattle.prem_pair.specs.Cycles.Rest.{PairRestsComeToOneStep};
ghost use Rattle.prem_pair.specs.Cycles.Apart.{ApartCyclesAreOwn};

/// Runs compose. A state in which both cores have ended all jobs, one has trapped or one has a full log stays as it is.
pub fn pair_runs_compose()
    ensures state { (rule other : ReplacementRule) (p q : Setup) (requests : List Request) (m n : ℕ) (s : PairState)
        → pair_cycles rule other p q requests (m + n) s ≡ pair_cycles rule other p q requests n (pair_cycles rule other p q requests m s) }
    ensures stays { (rule other : ReplacementRule) (p q : Setup) (requests : List Request) (n : ℕ) (s : PairState)
        → is_pair_over s ≡ true → pair_cycles rule other p q requests n s ≡ s }
{}

/// From a steady state so many cycles in which no request arrives, the token stays, the bus starts and ends nothing, and
/// both cores do nothing but count come to one step: what is left is so many cycles less, and each is a clash where two
/// want the bus.
pub fn pair_rests_come_to_one_step()
    ensures { PairRestsComeToOneStep }
{}

/// Where no request arrives, the token stays and not with the gates, no transaction begins, at most one core owes one, and
/// neither traps or frees the token, a cycle is each core's own, and the token is where it was. So the cycles of one core may
/// be done before those of the other.
pub fn apart_cycles_are_own()
    ensures { ApartCyclesAreOwn }
{}
