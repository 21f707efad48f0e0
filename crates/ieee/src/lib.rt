// IEEE 754-2019 over the format, with no code: in specs/ the definitions that the float helpers' contracts cite, and
// what they are worth to a reader; in proofs/ the laws that other crates cite.
#![tactic(auto)]
