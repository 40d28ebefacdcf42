// Prints the lot sheet of some numbers, or the line of its refusal: standard input up to 558 bytes, which are 93 fields
// of six columns. A list of more worths than they have room for is refused as one of 91 is.
#![tactic(auto)]

fn main() {
    let mut numbers = [0u8; 558];
    let n = io::read_full(0, &mut numbers);
    let text = writing::sheet_text(&numbers[..n]);
    io::write_all(1, text.as_bytes());
}
