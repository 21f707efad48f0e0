// A mesh turned inside out, with no code: in specs/ document 02's A9, said of what `qto::compute`, its C form and the routines on ids
// promise; in proofs/ why it holds.
#![tactic(auto)]
