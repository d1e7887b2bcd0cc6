// The text of a sheet in the printed layout (document 01, "Sections"; demand 2): definitions and theorems, no code.
#![tactic(auto)]
