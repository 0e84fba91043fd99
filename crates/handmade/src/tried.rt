// A record of a case is measured, and written into as much room as there is, into just as much as it measures, into one byte less, and into
// none.
use crate::said::{SPACE, UNTOUCHED, say_measured, say_written};
use steps::marshal::TpmMarshal;

fn write_into<T: TpmMarshal>(case: u64, x: T, src: &[u8], room: usize) {
    let mut space = [UNTOUCHED; SPACE];
    if let Some(out) = space.get_mut(..room) {
        let written = x.marshal(src, out);
        say_written(case, room, written, &space);
    }
}

pub fn try_writing<T: TpmMarshal>(case: u64, x: T, src: &[u8]) {
    let measured = x.measure(src);
    say_measured(case, measured);
    write_into(case, x, src, SPACE);
    if let Ok(n) = measured {
        write_into(case, x, src, n);
        write_into(case, x, src, n.saturating_sub(1));
    }
    write_into(case, x, src, 0);
}
