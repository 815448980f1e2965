// What follows from the definitions of `format`, by subject, in specs/. No function.
#![tactic(auto)]
