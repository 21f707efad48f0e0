// The road of a mesh through the definitions, with no code: in specs/ what it means that two meshes agree at each station of it and two
// calls in their outcomes; in proofs/ what of that holds of any two. `place`, `glove` and `editions` lean on it.
#![tactic(auto)]
