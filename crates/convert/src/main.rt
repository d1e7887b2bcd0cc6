// The conversion program (document 02, T-09): reads standard input, and writes what `conversion::convert_text` says of it.
#![tactic(auto)]

use conversion::{CLEAN_MOST, convert_text};
use listing::INPUT_MOST;
use std::io;
use std::io::{Read, Write};

// One byte more than the limit, so that more input is seen.
const INPUT_ROOM: usize = INPUT_MOST + 1;

fn main(rt: HostRuntime) -> io::Result<()> {
    let mut src = Vec::new(rt.alloc());
    rt.stdin().take(INPUT_ROOM as u64).read_to_end(&mut src)?;
    let mut text = [0u8; CLEAN_MOST];
    match convert_text(&src, &mut text) {
        Ok(size) => rt.stdout().write_all(&text[..size]),
        // The array holds any conversion.
        Err(_) => Ok(()),
    }
}
