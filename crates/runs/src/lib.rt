// Runs of a board: what its calls and their answers alone say of the rule on each place. Pure definitions and theorems.
#![tactic(auto)]
