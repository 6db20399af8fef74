// Demand 3, on paper alone: what an accepted code is safe for. The statements are in specs/, over the instructions of
// `lines` and the stores of `bytecode`.
#![tactic(auto)]
