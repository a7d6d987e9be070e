// Prints the listing of an input to standard output. Its error says that not all of it was written.
#![tactic(auto)]

use std::io;

pub fn print_listing(rt: &impl Print, input: &[u8]) -> io::Result<()> {
    let mut text = [0u8; listings::TEXT];
    let n = listings::listing_of(input, &mut text);
    rt.write_all(&text[..n])
}
