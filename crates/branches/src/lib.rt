// Steps on two branches of a sheet (02, U10): when two nodes are on two branches, and that steps there commute. No code.
#![tactic(auto)]
