// Cases of kind 14: a list.
use crate::tried::try_writing;
use attest::list::TpmlPcrSelection;
use wire::span::Span;

fn list(case: u64, start: usize, len: usize, src: &[u8]) {
    let x = TpmlPcrSelection {
        items: Span::new(start, len),
    };
    try_writing(case, x, src);
}

pub fn lists() {
    let one = [0, 0, 0, 1, 0, 0x0b, 0];
    list(31, 0, 7, &one);
    list(32, 0, 8, &[0, 0, 0, 1, 0, 0x0b, 0, 0xff]);
    list(33, 0, 5, &one);
    list(34, 0, 3, &one);
    list(35, 0, 4, &[0, 0, 0, 17]);
    list(36, 0, 7, &[0, 0, 0, 1, 0, 2, 0]);
    list(37, 0, 7, &[0, 0, 0, 1, 0, 0x0b, 5]);
    list(38, 0, 9, &[0, 0, 0, 1, 0, 0x0b, 3, 1, 2]);
    list(39, 1, 7, &one);
    list(40, 1, 11, &[0xff, 0, 0, 0, 1, 0, 0x0b, 4, 1, 2, 3, 4]);
}
