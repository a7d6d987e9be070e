// The listing program: reads 4 bytes of fuel and a program from standard input, and prints the listing. What is read is more than any program
// has, so that a longer input too is refused by its length. An input that can't be read is no short one: it ends the program with an error.
#![tactic(auto)]

use reading::INPUT;
use std::io;

fn main(rt: HostRuntime) -> io::Result<()> {
    let mut input = [0u8; INPUT];
    let n = reading::read_input(&mut rt.stdin(), &mut input)?;
    printing::print_listing(&rt, &input[..n])
}
