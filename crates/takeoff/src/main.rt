// The program `takeoff`: reads a mesh file from standard input to its end and prints its listing, or `refused N`.
// What it prints is `program::run_front`'s.
#![tactic(auto)]

// Stays: a `main` for each, since a bound `Fn` that names an array of N gets no proof, and a trait takes more lines than these five.
fn main(rt: HostRuntime) {
    let mut bytes = [0u8; program::KEPT];
    let n = stdio::counted(stdio::read_input(&rt, &mut bytes, 0));
    let mut text = [0u8; program::TEXT];
    let end = program::run_front(&bytes, n, &mut text);
    stdio::write_text(&rt, &text[..end]);
}
