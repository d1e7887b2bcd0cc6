// The marked examples of document 01, proved as one table. There is no code: the table stands in specs/Marked.antt.
#![tactic(auto)]
