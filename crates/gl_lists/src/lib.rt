//! Laws on lists, tests and orders that stand on std alone, each once.
#![tactic(auto)]
