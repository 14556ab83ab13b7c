//! What holds of the rules' definitions alone.

ghost use Rattle.rc_rules.specs.Laws.{IsReflexive, IsTransitive, RulesGrow};

/// Each state is weaker than itself.
pub fn weaker_is_reflexive()
    ensures { IsReflexive }
{}

/// What is weaker than a weaker state is weaker.
pub fn weaker_is_transitive()
    ensures { IsTransitive }
{}

/// Each rule grows with its states: stronger ones meet the same premises, and give stronger ones.
pub fn rules_grow()
    ensures { RulesGrow }
{}
