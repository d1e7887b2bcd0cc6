// What the contracts of the entry points permit: on the inputs computed here, one answer alone and one content of every lent table.
// There is no code: the facts stand in `proofs/`.
#![tactic(auto)]
