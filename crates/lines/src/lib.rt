// The instructions of a whole code, on paper alone: specs/Lines.antt. The decoder of crate `bytecode` is held against them.
#![tactic(auto)]
