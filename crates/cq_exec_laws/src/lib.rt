//! How a plan is computed, and the laws on it, as the contract of a function that does nothing.
#![tactic(auto)]

ghost use Rattle.cq_exec_laws.specs.Bounds.{PlansAreBound};
ghost use Rattle.cq_exec_laws.specs.Ordering.{ComputingYields, PlansAreOrdered, NestedIsScoped, NestedIsOutermost};

/// Results that are set one after the other, each over those before it, are the results of the plan; and so the plan of a statement whose
/// queries name what they see sets them. Its blocks keep to the widths that the binder gave. Does nothing.
pub fn exec_laws()
    ensures computing { ComputingYields }
    ensures ordered { PlansAreOrdered }
    ensures scoped { NestedIsScoped }
    ensures outermost { NestedIsOutermost }
    ensures bounds { PlansAreBound }
{}
