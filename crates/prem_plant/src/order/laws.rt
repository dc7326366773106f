// The laws of residency, for each kind of replacement.
ghost use Rattle.std.specs.Prelude.{◌<◌, ◌≤◌, ℕ, List, length};
ghost use Rattle.prem_plant.specs.declared.plant.Replacement.{Replacement};
ghost use Rattle.prem_plant.specs.Order.Order.{AllIn, CacheMissesOnce, HaveRoom, IsCacheFullAfter, IsFullAfter, MissesOnce, cache_misses};
ghost use Rattle.prem_plant.specs.Order.Rules.{KeepsMembers, MovesAlike, order_rule_of, passes_of};

/// From any state of one set, and of the whole cache: while only lines of a collection are touched that has at
/// most as many lines in a set as there are ways, none of them misses twice. So there are no more misses than
/// lines.
pub fn each_line_misses_once()
    ensures set { (kind : Replacement) → MissesOnce (order_rule_of kind) }
    ensures cache { (kind : Replacement) → CacheMissesOnce (order_rule_of kind) }
    ensures count { (kind : Replacement) (room : ℕ) (orders : List (List ℕ)) (members touches : List ℕ) → 0 < length orders
        → HaveRoom (length orders) room members → AllIn members touches
        → length (cache_misses (order_rule_of kind) room orders touches) ≤ length members }
{}

/// From any state, after the passes of the kind, each of which touches every line of such a collection, all of them
/// are resident, and no later touch of one of them misses.
pub fn passes_bring_all_in()
    ensures set { (kind : Replacement) → IsFullAfter (passes_of kind) (order_rule_of kind) }
    ensures cache { (kind : Replacement) → IsCacheFullAfter (passes_of kind) (order_rule_of kind) }
{}

/// A hit keeps the members of an order, and moves them by their places alone: so the lines of a set move as the ways
/// that hold them.
pub fn rules_go_by_places()
    ensures members { (kind : Replacement) → KeepsMembers (order_rule_of kind) }
    ensures alike { (kind : Replacement) → MovesAlike (order_rule_of kind) }
{}
