// The chain program: a table file and a list of steps in, the delay along the chain out.
#![tactic(auto)]

ghost use Rattle.std.specs.Prelude.{IfSome};
ghost use Rattle.io.specs.Counts.{IsPrefixLen};

use chains::{About, Delayed};
use std::env::FillError;
use std::fs;
use std::fs::File;
use std::io::Read;
use std::os::fd::AsRawFd;
use std::rt::{Env, Files};
use tell::{STDERR_FILENO, STDOUT_FILENO};

// Says that a file cannot be read.
fn tell_unreadable(name: &[u8]) {
    io::write_all(STDERR_FILENO, b"chain: cannot read ");
    io::write_all(STDERR_FILENO, name);
    io::write_all(STDERR_FILENO, b"\n");
}

// Opens a file for reading. None where it cannot be opened or read, or where its name is no UTF-8, as each path of std is.
fn open_read<R: Files>(rt: &R, name: &[u8]) -> Option<R::File> {
    let path = str::from_utf8(name).ok()?;
    let mut file = fs::open(rt, path).ok()?;
    // a folder can be opened, but not read
    file.read(&mut [0u8; 0]).ok()?;
    Some(file)
}

// Reads the front of the file that an argument names, as much of it as there is room for; how many bytes, or None where it cannot be
// read.
fn read_front(
    rt: &(impl Env + Files<File = File>),
    argument: usize,
    bytes: &mut [u8],
) -> Option<usize>
    ensures { IfSome result (λ count. IsPrefixLen count bytes.new) }
{
    let mut name = io::buffer();
    let n = rt.arg(argument, &mut name).unwrap_or(0);
    let Some(file) = open_read(rt, &name[..n]) else {
        tell_unreadable(&name[..n]);
        return None;
    };
    Some(io::read_full(file.as_raw_fd(), bytes))
}

// Prints the delay, or what is refused and why. Piece by piece: each is tried, also where one before it failed.
fn print(answer: Delayed) {
    match answer.about {
        About::Chain => {
            io::write_all(STDOUT_FILENO, b"delay ");
            io::print_decimal(STDOUT_FILENO, answer.delay as u64);
            io::write_all(STDOUT_FILENO, b"\n");
            return;
        }
        About::File => {
            io::write_all(STDOUT_FILENO, b"file");
        }
        About::List => {
            io::write_all(STDOUT_FILENO, b"list");
        }
        About::Core(core) => {
            io::write_all(STDOUT_FILENO, b"core ");
            io::print_decimal(STDOUT_FILENO, core as u64);
        }
    }
    tell::verdict(STDOUT_FILENO, answer.verdict);
}

// Whether the program was started with an argument of that number; its own name is number 0.
fn has_argument(rt: &impl Env, argument: usize) -> bool {
    let mut front = [0u8; 1];
    match rt.arg(argument, &mut front) {
        Err(FillError::NotPresent) => false,
        Ok(_) | Err(FillError::TooLong) => true,
    }
}

// The delay along the chain: of a table 5,124 bytes are enough to judge it, of a list 132. None where one of them cannot be read.
fn delay_of(rt: &(impl Env + Files<File = File>)) -> Option<Delayed> {
    let mut table = [0u8; 5124];
    let n = read_front(rt, 1, &mut table)?;
    let mut list = [0u8; 132];
    let m = read_front(rt, 2, &mut list)?;
    Some(chains::delay(&table[..n], &list[..m]))
}

fn main(rt: HostRuntime) {
    if !has_argument(&rt, 2) || has_argument(&rt, 3) {
        io::write_all(STDERR_FILENO, b"chain: name a table file and a list file\n");
        return;
    }
    if let Some(answer) = delay_of(&rt) {
        print(answer);
    }
}
