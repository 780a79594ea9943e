// The sheet of a rule text: it passes checks 1 to 7 and means the policy that was read. Definitions and laws only.
#![tactic(auto)]
