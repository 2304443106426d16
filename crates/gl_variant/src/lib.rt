//! Laws of variants as keys of a table: which are the same, and that those are hashed alike.
#![tactic(auto)]
