// The export program: a table file in, its comma-separated lines out.
#![tactic(auto)]

use tell::{STDIN_FILENO, STDOUT_FILENO};

// Reads a table file on standard input, of which 5,124 bytes are enough to judge it, and writes its lines; of a refused file it writes
// only a line on standard error.
fn main() {
    let mut bytes = [0u8; 5124];
    let n = io::read_full(STDIN_FILENO, &mut bytes);
    match files::load(&bytes[..n]) {
        Ok(good) => {
            let mut out = [0u8; 11520];
            let wrote = comma::write(&good.table, &mut out);
            io::write_all(STDOUT_FILENO, &out[..wrote.count]);
        }
        Err(refusal) => tell::refusal(b"file", refusal),
    }
}
