// The lines of a listing.
ghost use Rattle.std.specs.Prelude.{◌≡◌, ◌+◌, ◌<◌, ◌^◌, length};
ghost use Rattle.model.specs.Lists as lists;
ghost use Rattle.record.specs.RefusalNumber.{refusal_number};
ghost use Rattle.text.specs.Put.{Put, Puts};
ghost use Rattle.listing.specs.Ready.{EntriesReady, LogReady};
ghost use Rattle.model.specs.Sizes.{card_size, fuse_at};
ghost use Rattle.model.specs.Device.{tries_of};
ghost use Rattle.model.specs.At88sc1608.{at88sc1608};
ghost use Rattle.text.specs.Text.{line, tries_line, fuses_line, refused_line};
ghost use Rattle.listing.specs.Listing.{lines_at, card_lines, log_lines};

use header::header_length;
use record::number;
use record::refusal::Refusal;
use security::counter::tries_of;
use sizes::{CARD, FUSES, TRAILER};
use text::Page;

// helper: the line of an entry of a log.
fn put_line(page: &mut Page<'_>, number: usize, kind: u8, response: &[u8])
    requires { page.old.at + length (line number kind response.now) < 2 ^ 64 }
    ensures { Puts page.old (line number kind response.now) page.new }
{
    page.put_decimal(number);
    page.put_hex(kind);
    page.put_hexes(response);
    page.put(b'\n');
}

// helper: a line for each of count entries from the front of a log on, at the front of a page.
fn put_entries(page: &mut Page<'_>, log: &[u8], count: usize, end: usize)
    requires { EntriesReady log.now count end × (page.old.at ≡ 0) }
    ensures { Puts page.old (lines_at count 0 log.now 0) page.new }
{
    let mut at = 0;
    for number in 0..count {
        let kind = log[at];
        let from = at + header_length(kind);
        let next = from + number::get::<2>(log, at + 1);
        put_line(page, number, kind, &log[from..next]);
        at = next;
    }
}

// helper: the line of the tries left. It, that of the fuses and that of a refusal stay three: a closure's clause would be longer than each.
fn put_tries(page: &mut Page<'_>, card: &[u8])
    requires { (length card.now ≡ card_size) × (page.old.at + 91 < 2 ^ 64) }
    ensures { Puts page.old (tries_line (tries_of at88sc1608 card.now)) page.new }
{
    page.put_all(b"tries");
    page.put_decimals(&tries_of(card));
    page.put(b'\n');
}

// helper: the line of the fuses.
fn put_fuses(page: &mut Page<'_>, card: &[u8])
    requires { (length card.now ≡ card_size) × (page.old.at + 9 < 2 ^ 64) }
    ensures { Puts page.old (fuses_line (lists.at card.now fuse_at)) page.new }
{
    page.put_all(b"fuses");
    page.put_hex(card[FUSES]);
    page.put(b'\n');
}

// helper: the lines of a final card.
fn put_card(page: &mut Page<'_>, card: &[u8])
    requires { (length card.now ≡ card_size) × (page.old.at + 100 < 2 ^ 64) }
    ensures { Puts page.old (card_lines card.now) page.new }
{
    put_tries(page, card);
    put_fuses(page, card);
}

// helper: a line for each entry of a log, and those of its card.
#[tactic(auto, using(crate::proofs::LineLaws::log_trailed))]
pub fn put_log(text: &mut [u8], log: &[u8]) -> usize
    requires { LogReady log.now }
    ensures { Put text.old 0 (log_lines log.now) text.new result }
{
    let length = log.len();
    let start = number::get::<4>(log, length - TRAILER);
    let mut page = Page::new(text);
    put_entries(&mut page, log, number::get::<2>(log, length - 4), start);
    put_card(&mut page, &log[start..start + CARD]);
    page.at
}

// helper: a refusal.
pub fn put_refusal(text: &mut [u8], why: Refusal) -> usize
    ensures { Put text.old 0 (refused_line (refusal_number why)) text.new result }
{
    let mut page = Page::new(text);
    page.put_all(b"refused ");
    page.put_decimal(u8::from(why) as usize);
    page.put(b'\n');
    page.at
}
