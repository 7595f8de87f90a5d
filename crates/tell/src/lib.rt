// What the programs tell of a verdict, and the descriptors that they read and write.
#![tactic(auto)]

use table::Verdict;

// The three descriptors that a program is started with, by C's names and numbers.
pub const STDIN_FILENO: i32 = 0;

pub const STDOUT_FILENO: i32 = 1;

pub const STDERR_FILENO: i32 = 2;

// Writes a verdict behind what it speaks of: ` code C number N`. Piece by piece: each is tried, also where one before it failed.
pub fn verdict(fd: i32, v: Verdict) {
    io::write_all(fd, b" code ");
    io::print_decimal(fd, v.code() as u64);
    io::write_all(fd, b" number ");
    io::print_decimal(fd, v.number() as u64);
    io::write_all(fd, b"\n");
}

// Says on standard error that something was refused: `WORD code C number N`.
pub fn refusal(word: &[u8], v: Verdict) {
    io::write_all(STDERR_FILENO, word);
    verdict(STDERR_FILENO, v);
}
