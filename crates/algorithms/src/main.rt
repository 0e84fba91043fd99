// Tries all 65,536 algorithm codes, and writes those that are read, and how many they are.
#![tactic(auto)]

use codes::TpmAlgId;
use wire::unmarshal::TpmUnmarshal;

fn is_read(code: u16) -> bool {
    TpmAlgId::unmarshal(&code.to_be_bytes(), 0).is_ok()
}

fn write_line(n: u64, word: &[u8]) {
    io::print_decimal(1, n);
    io::write_all(1, word);
}

fn main() {
    let mut count: u64 = 0;
    for code in 0..=u16::MAX {
        if is_read(code) {
            write_line(u64::from(code), b"\n");
            count += 1;
        }
    }
    write_line(count, b" listed\n");
}
