// The commands of a job: their bytes, the table of their operands, the countings that operands name, handler commands, and reading one
// command.
#![tactic(auto)]

pub mod bytes;
pub mod instruction;
pub mod numbers;
pub mod read;
pub mod refusal;
pub mod table;
