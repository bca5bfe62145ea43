//! Planning tasks as the textbook has them; what stands here is said in specs/, and nothing runs.
#![tactic(auto)]

ghost use Rattle.planning.specs.Leads.{ReachableLeast};

/// That the reachable states are the least that hold the start and every state that an operator leads to from one of them.
pub fn reachable_states_are_least()
    ensures { ReachableLeast }
{}
