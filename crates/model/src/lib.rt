// What the flow runner has to do: definitions and statements in specs/, their proofs in proofs/. There is no code here.
#![tactic(auto)]
