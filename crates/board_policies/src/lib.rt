// A board whose rules are compiled from sheets. Pure definitions and theorems.
#![tactic(auto)]
