// Reads a sheet from standard input, to its end, and writes the answer to standard output.
#![tactic(auto)]

use std::io::Read;
use tables::{each_line, read_full};
use text_items::MOST_BYTES;
use weigh_text::{MOST_ANSWER, weigh_text};

// One byte more than a sheet may have, so that a longer text is seen to be one.
const ROOM: usize = MOST_BYTES + 1;

// Reads to the end of the input, or until a read fails, so that whoever writes to it is not cut off.
fn read_on<I: Read>(input: &mut I) {
    let _ = each_line::<4096, _, _>(input, &mut |_| Ok(()));
}

// Answers the text, and says on standard error where the answer cannot be written.
fn answer<R: Print + Eprint>(rt: &R, text: &[u8]) {
    // Kept: an array of the largest size, since there is no heap and the limits are fixed.
    let mut out = [0u8; MOST_ANSWER];
    let length = weigh_text(text, &mut out);
    if rt.write_all(&out[..length]).is_err() {
        let _ = rt.eprintln("weigh: the answer cannot be written");
    }
}

fn main(rt: HostRuntime) {
    let mut text = [0u8; ROOM];
    let mut stdin = rt.stdin();
    let Ok(length) = read_full(&mut stdin, &mut text) else {
        let _ = rt.eprintln("weigh: standard input cannot be read");
        return;
    };
    if length == ROOM {
        read_on(&mut stdin);
    }
    answer(&rt, &text[..length]);
}
