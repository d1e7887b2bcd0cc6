// The laws of altered sheets (document 02, T-08) that speak of their text, areas, ring checks and tallies; no code.
#![tactic(auto)]
