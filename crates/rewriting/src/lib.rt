// The rewriting of trees, as definitions and theorems: specs/ holds them, and there is no code. The crates that rewrite stand on it.

#![tactic(auto)]
