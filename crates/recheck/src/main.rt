// The recheck program: a table file in, its rows checked against each other as after 10,000 keystrokes, the last verdict out.
#![tactic(auto)]

use table::{Table, Verdict};
use tell::STDIN_FILENO;

// How many keystrokes there are; a check follows each.
const KEYSTROKES: u32 = 10000;

// What the last check says. Each keystroke gives the first row another id, above those of a file: no two checks are of one table.
fn last_check(mut t: Table) -> Result<(), Verdict> {
    let mut last = Ok(());
    for i in 1..=KEYSTROKES {
        t.rows[0].id = 65535 + i;
        last = t.check_clashes();
    }
    last
}

// What the checks say of a table file's rows, or why the file is refused.
fn recheck(bytes: &[u8]) -> Result<(), Verdict> {
    last_check(files::load(bytes)?.table)
}

// Reads a table file on standard input and prints the verdict: 5,124 bytes are enough to judge any file.
fn main(rt: HostRuntime) {
    let mut bytes = [0u8; 5124];
    let n = io::read_full(STDIN_FILENO, &mut bytes);
    let last = Verdict::from(recheck(&bytes[..n]));
    // piece by piece: each is tried, also where one before it failed
    print!(rt; "{}", last.code()).ok();
    print!(rt; " ").ok();
    print!(rt; "{}", last.number()).ok();
    println!(rt).ok();
}
