// Makes the table of name bytes from its rule, and prints it in hexadecimal, one line.
#![tactic(auto)]

// Standard output.
const STDOUT_FILENO: i32 = 1;

fn show(table: &[u8]) {
    for &byte in table {
        io::print_hex(STDOUT_FILENO, u64::from(byte), 2);
    }
    io::write_all(STDOUT_FILENO, b"\n");
}

fn main() {
    let mut table = [0u8; 64];
    printer::names::make(&mut table);
    show(&table);
}
