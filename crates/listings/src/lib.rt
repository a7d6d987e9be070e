// The listing of an input, 4 bytes of fuel and a program.
#![tactic(auto)]

ghost use Rattle.listing_text.specs.Buffers.{Prints};
ghost use Rattle.listings.specs.Listing.{listing_of};
ghost use Rattle.listings.specs.Lent.{Lent};

use refusals::Reason;

// The longest text: 64 bytes for each of 2,049 lines.
pub const TEXT: usize = 131136;

// Runs the program in buffers that are lent for it, and makes the text of what came of it. Returns the text's length.
fn listing_by(input: &[u8], output: &mut [u8], work: &mut [u8], text: &mut [u8]) -> usize
    requires { Lent output.old work.old text.old }
    ensures { Prints text.old (listing_of input.now) text.new result }
{
    if input.len() < 4 {
        return listing_text::refused_text(u32::from(Reason::ProgramShort.number()), 0, text);
    }
    let fuel = records::get32(input, 0);
    let answer = engine::run(&input[4..], fuel, output, work);
    // The answer is C's, which says so by a number.
    let number = answer.number;
    if number != 0 {
        return listing_text::refused_text(number, answer.place, text);
    }
    let end = answer.written as usize;
    let parts = parts::parts_of(&output[..end]);
    listing_text::accepted_text(
        answer.ending,
        answer.steps,
        answer.root_type,
        parts.records,
        text,
    )
}

// The listing of an input of any bytes. Returns its length; the text's bytes beyond it stay.
pub fn listing_of(input: &[u8], text: &mut [u8; TEXT]) -> usize
    ensures { Prints text.old (listing_of input.now) text.new result }
{
    let mut output = [0u8; engine::OUTPUT];
    let mut work = [0u8; engine::WORK];
    listing_by(input, &mut output, &mut work, text)
}
