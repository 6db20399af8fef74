// Decoding said exactly, on paper alone: each kind of answer exactly when, and what of the room and of the pool table counts.
#![tactic(auto)]
