// Judging a schedule (8 to 14) and checking its rounds (15 to 17), in a mode and on a setting: the tables of a good pair.
#![tactic(auto)]

pub mod check;
mod faults;
pub mod mode;
pub mod schedule;
pub mod setting;
