// The samples program: reads table files and writes them back; for each the code, its number, the rows, and the bytes written.
#![tactic(auto)]

// Prints a number and what follows it. Each piece of what is printed is tried, also where one before it failed.
fn show(rt: &impl Print, n: usize, end: &str) {
    print!(rt; "{n}").ok();
    print!(rt; "{end}").ok();
}

// Prints bytes in hex on one line.
fn show_bytes(rt: &impl Print, bytes: &[u8]) {
    for byte in bytes {
        print!(rt; " ").ok();
        print!(rt; "{byte:02x}").ok();
    }
    println!(rt).ok();
}

// Reads a file and writes its table back, and says what came of both.
fn sample(rt: &impl Print, bytes: &[u8]) {
    let read = files::read(bytes);
    let verdict = read.verdict;
    show(rt, verdict.code() as usize, " ");
    show(rt, verdict.number(), " ");
    show(rt, read.table.count, " rows, written:");
    let mut out = [0u8; 64];
    let wrote = files::write(&read.table, &mut out);
    if let Some(bytes) = out.get(..wrote.count) {
        show_bytes(rt, bytes);
    }
}

fn main(rt: HostRuntime) {
    // an empty file: code 1, number 0
    sample(&rt, b"");
    // no rows: good
    sample(&rt, b"\x00");
    // a byte after the last row: code 8, number 1
    sample(&rt, b"\x00\x00");
    // 80 80 80 08 as a period: code 3
    sample(&rt, b"\x01\x01\x00\x00\x03\x80\x80\x80\x08\x05\x01\x01");
    // Set A
    sample(
        &rt,
        b"\x03\x01\x00\x00\x03\x05\x05\x01\x01\x02\x00\x01\x02\x0A\x0A\x02\x01\x02\x03\x00\x01\x01\x14\x14\x02\x02\x03",
    );
}
