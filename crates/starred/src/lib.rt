// The starred cases of docs/FORMATS.md, "A small roastery": one list of sheets and tables, proved together against the meanings.
#![tactic(auto)]
