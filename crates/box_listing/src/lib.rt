// What the program prints of a session that the box runs.
#![tactic(auto)]

ghost use Rattle.box_listing.specs.BoxListing.{BoxPrinted};

use box_run::box_refuses;
use listing::lines::put_refusal;
use listing::print;
use record::refusal::Refusal;
use sizes::TEXT_SPACE;

// At the front of the text space, whole: the line of 18, or what is printed of a session on an exam machine.
pub fn print_boxed(session: &[u8], text: &mut [u8; TEXT_SPACE]) -> usize
    ensures { BoxPrinted session.now text.old result text.new }
{
    if box_refuses(session) {
        put_refusal(text, Refusal::BoxLimits)
    } else {
        print(session, text)
    }
}
