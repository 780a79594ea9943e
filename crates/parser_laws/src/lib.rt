// Rule texts from reading to the board, as theorems. Definitions and laws only.
#![tactic(auto)]
