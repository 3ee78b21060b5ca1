// Node, flow, variable and function numbers are four separate countings, each from 0 over the whole job: one type each, so that the
// target of a wire can't be used as the number of a variable.
#[derive(Clone, Copy, PartialEq, Eq)]
pub struct NodeNum(pub u32);

#[derive(Clone, Copy, PartialEq, Eq)]
pub struct FlowNum(pub u32);

#[derive(Clone, Copy, PartialEq, Eq)]
pub struct VarNum(pub u32);

#[derive(Clone, Copy, PartialEq, Eq)]
pub struct FunNum(pub u32);
