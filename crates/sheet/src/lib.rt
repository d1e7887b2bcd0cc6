// The meaning of a sheet (document 01, "Header and EOF", "Sections", "Sheet tables"): definitions and theorems, no code.
#![tactic(auto)]
