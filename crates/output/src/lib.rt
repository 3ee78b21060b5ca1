// What a run hands over: entries in document 01's numbers, the bytes of the trace, the bytes of the snapshot (01's "end picture").
#![tactic(auto)]

pub mod numbers;
pub mod places;
pub mod snapshot;
pub mod trace;
