// What instructions compute: functions on words, with no state.
#![tactic(auto)]

pub mod arithmetic;
pub mod compare;
pub mod extend;
pub mod shift;
