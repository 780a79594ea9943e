// What C reads of the calls, as theorems: answers read back from their numbers, sessions as histories of a board, texts, joins and explanations, and that
// each call is determined. Definitions and laws only.
#![tactic(auto)]
