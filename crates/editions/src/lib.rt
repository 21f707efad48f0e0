// What the edition of the slope rule can change, with no code: in specs/ document 02's A6, said of what `qto::compute` and its C form
// promise; in proofs/ why it holds.
#![tactic(auto)]
