// What joins the crates, on paper alone: every answer pinned down, and the settled examples.
#![tactic(auto)]
