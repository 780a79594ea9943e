// Sheets with the same used nodes, apart from their numbering, mean the same and are judged alike. Definitions and laws only.
#![tactic(auto)]
