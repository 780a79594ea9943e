// What a board holds, and what each call on it answers and changes. Pure definitions and laws.
#![tactic(auto)]
