// One clean file for one sheet (document 02, T-13): what reading and writing give together. Definitions and theorems, no code.
#![tactic(auto)]
