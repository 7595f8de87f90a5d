// The report program: a table file in, its timing sheet out.
#![tactic(auto)]

use tell::{STDIN_FILENO, STDOUT_FILENO};

// Reads a table file on standard input and prints its timing sheet: 5,124 bytes are enough to judge any file, and any sheet fits.
fn main() {
    let mut bytes = [0u8; 5124];
    let n = io::read_full(STDIN_FILENO, &mut bytes);
    let mut out = [0u8; 29842];
    let printed = sheet::sheet(&bytes[..n], &mut out);
    io::write_all(STDOUT_FILENO, &out[..printed.count]);
}
