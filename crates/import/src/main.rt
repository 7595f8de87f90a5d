// The import program: comma-separated lines in, their table file out.
#![tactic(auto)]

use tell::{STDIN_FILENO, STDOUT_FILENO};

// Reads a text on standard input and writes its table file; of a refused text it writes only a line on standard error. A good text
// has at most 14,464 bytes, so that a longer one than fits here is refused by what does.
fn main() {
    let mut text = [0u8; 65536];
    let n = io::read_full(STDIN_FILENO, &mut text);
    match comma::load(&text[..n]) {
        Ok(good) => {
            let mut out = [0u8; 5121];
            let wrote = files::write(&good.table, &mut out);
            io::write_all(STDOUT_FILENO, &out[..wrote.count]);
        }
        Err(refusal) => tell::refusal(b"text", refusal),
    }
}
