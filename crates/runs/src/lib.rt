#![tactic(auto)]

// The calls on a container as values, the line, and the laws of runs. All of it stands in specs/ and proofs/.
