//! Laws about the definitions alone. Each is the contract of a function with an empty body.
ghost use Rattle.read_plan.specs.Laws.{OrderIsByLists, LeastPlanIsOne};

/// Of two sets of one size the first comes before the second exactly if its ascending list is less.
pub fn order_is_by_lists()
    ensures { OrderIsByLists }
{}

/// There is at most one least plan.
pub fn least_plan_is_one()
    ensures { LeastPlanIsOne }
{}
