// The site's place does not show, with no code: in specs/ the third demand, said of what `qto::compute` promises; in proofs/ why it holds.
#![tactic(auto)]
