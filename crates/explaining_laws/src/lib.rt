// What explaining gives, as theorems: each answer, the place, the node that is named, and boards. Definitions and laws only.
#![tactic(auto)]
