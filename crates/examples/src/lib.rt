// Worked examples of the definitions, compared by computation. No code.
#![tactic(auto)]
