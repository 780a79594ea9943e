// Histories of a board and its area. Pure definitions and theorems.
#![tactic(auto)]
