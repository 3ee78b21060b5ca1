// What a run answers.
use command::refusal::Refusal;
use turns::ending::Ending;

// The answer to a job, how its run ended or its refusal, and how many nodes were examined for the choices of its run (S-2). The total
// stands beside the `Result` and not in its `Ok`: it is told of a refusal too, as 0.
#[derive(Clone, Copy)]
pub struct Handed {
    pub answer: Result<Ending, Refusal>,
    pub examined: u32,
}
