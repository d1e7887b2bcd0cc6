// Shared mathematics, no code: choices, lists, parts of slices, tables, whole numbers of either sign.
#![tactic(auto)]
