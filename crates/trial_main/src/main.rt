// Prints the trial sheet of four numbers, or the line of its refusal: standard input, which has to be 24 bytes, four
// fields of six columns. Of other bytes it prints nothing.
#![tactic(auto)]

fn main() {
    let mut numbers = [0u8; 25];
    let n = io::read_full(0, &mut numbers);
    let text = trial::trial_text(&numbers[..n]);
    io::write_all(1, text.as_bytes());
}
