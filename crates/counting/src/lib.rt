// Steps 5 and 6 of "One interval": the prices that join the windows, and the periods.
#![tactic(auto)]

pub mod periods;
pub mod windows;
