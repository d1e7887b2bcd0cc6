// The listing program (document 01, "Listing program"): reads standard input, and writes what `listing::list_text` says of it.
#![tactic(auto)]

use listing::{INPUT_MOST, TEXT_MOST, list_text};
use std::io;
use std::io::{Read, Write};

// One byte more than the limit, so that more input is seen.
const INPUT_ROOM: usize = INPUT_MOST + 1;

fn main(rt: HostRuntime) -> io::Result<()> {
    let mut src = Vec::new(rt.alloc());
    rt.stdin().take(INPUT_ROOM as u64).read_to_end(&mut src)?;
    let mut text = [0u8; TEXT_MOST];
    match list_text(&src, &mut text) {
        Ok(size) => rt.stdout().write_all(&text[..size]),
        // The array holds any listing.
        Err(_) => Ok(()),
    }
}
