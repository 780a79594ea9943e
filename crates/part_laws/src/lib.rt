// What the words of a node say: they are read back as the node's policy, and they stand in the text where they are looked for. Pure definitions and
// theorems.
#![tactic(auto)]
