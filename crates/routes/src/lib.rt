// A pair of routes: judging it, its rules and due nodes, its jumps, and the walk in one state.
//
// Routes and sets come as bytes, as everywhere in the library (see `house`). Every function here takes any bytes.
#![tactic(auto)]

pub mod jump;
pub mod pair;
pub mod rule;
pub mod walk;
