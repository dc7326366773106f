//! Where each task's run on its own keeps to its script, no execution phase misses, no memory phase stores, and the bus has no clash.
ghost use Rattle.prem_plant.specs.declared.plant.Replacement.{Replacement};
ghost use Rattle.prem_plant.specs.Order.Order.{each_pass, fifo, lru, one_pass};
ghost use Rattle.prem_plant.specs.Order.Rules.{order_rule_of, passes_of};
ghost use Rattle.prem_lru.specs.Entries.{in_place, to_front};
ghost use Rattle.prem_lru.specs.Rules.{rule_of};
ghost use Rattle.prem_sound.specs.Resident.Faultless.{IsPolicy, PlantsMakeNoFault, ScriptsMakeNoFault};

/// Under each kind of replacement each line misses once, and its passes bring all in: one pass where the least recently
/// used line goes, and a pass for each way where the one goes that came first.
pub fn the_cache_is_a_policy()
    ensures lru { IsPolicy to_front lru one_pass }
    ensures fifo { IsPolicy in_place fifo each_pass }
    ensures each { (kind : Replacement) → IsPolicy (rule_of kind) (order_rule_of kind) (passes_of kind) }
{}

/// Several tasks, each with bytes of its own and a script, and devices. In every state of every run no instruction that issued
/// in an execution phase has missed, none has stored in a memory phase, and core and gate have never wanted the same cycle
/// of the bus. This holds for any rule of replacement under which so many passes bring all lines in as the scripts have; and so
/// for the policy that a plant names.
pub fn runs_make_no_fault()
    ensures rule { ScriptsMakeNoFault }
    ensures plant { PlantsMakeNoFault }
{}
