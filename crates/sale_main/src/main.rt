// Prints the sale of a lot sheet: standard input up to 560 bytes, which is longer than any sheet that is accepted.
#![tactic(auto)]

fn main() {
    let mut sheet = [0u8; 560];
    let n = io::read_full(0, &mut sheet);
    let text = printed::sale_text(&sheet[..n]);
    io::write_all(1, text.as_bytes());
}
