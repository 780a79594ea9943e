// What compiling gives, as theorems: demands 2 and 3 for sheets. Definitions and laws only.
#![tactic(auto)]
