//! Laws: the declarations of every session are derived by the typing rules, and told by a line each, whatever sentence is run.
#![tactic(auto)]
