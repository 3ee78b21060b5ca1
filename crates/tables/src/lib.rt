// What the commands of a job declare, as tables: the cells that hold it. The definitions say what each cell stands for.
#![tactic(auto)]

pub mod bits;
pub mod cells;
