// Reads a sheet from standard input and writes its listing to standard output.
#![tactic(auto)]

fn main() {
    // One byte more than the longest sheet, to see what is too long.
    let mut sheet = [0u8; 8193];
    let n = io::read_full(0, &mut sheet);
    let mut text = [0u8; 4096];
    let k = lines::list_sheet(&sheet[..n], &mut text);
    if !io::write_all(1, &text[..k]) {
        io::write_all(2, b"the listing could not be written\n");
    }
}
