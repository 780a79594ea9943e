// What joining gives, as theorems: the joined table, each answer, demand 3, order, repetition and groups, and boards. Definitions and laws only.
#![tactic(auto)]
