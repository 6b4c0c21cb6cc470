// The sizes of the card, of sessions and of logs, each under one name.
#![tactic(auto)]

// The card's map: where the configuration starts, its access registers, the authentication attempts counter, the cryptogram, the
// passwords with their attempts counters, the fuse byte, the staging bytes: the flag, what names a write, its values; and the length of
// the whole.
pub const CONFIGURATION: usize = 2048;

pub const REGISTERS: usize = CONFIGURATION + 16;

pub const ATTEMPTS: usize = CONFIGURATION + 32;

pub const CRYPTOGRAM: usize = CONFIGURATION + 40;

pub const PASSWORDS: usize = CONFIGURATION + 64;

pub const FUSES: usize = 2176;

pub const FLAG: usize = 2177;

pub const STAGED: usize = FLAG + 1;

pub const VALUES: usize = FLAG + 4;

pub const CARD: usize = 2189;

// How many attempts counters there are: one for each selector, and that of authentication.
pub const COUNTERS: usize = 17;

// What stands behind the records of a session, and behind the card of a log.
pub const TRAILER: usize = 8;

// A session without text and records, and the longest one.
pub const LEAST_SESSION: usize = CARD + TRAILER;

pub const GREATEST_SESSION: usize = 65536;

// A log without entries.
pub const LEAST_LOG: usize = CARD + TRAILER;

pub const MOST_RECORDS: usize = 4096;

// The longest session that the box takes, and the most records.
pub const BOX_SESSION: usize = 4096;

pub const BOX_RECORDS: usize = 64;

// The longest title that the session writer takes.
pub const MOST_TITLE: usize = 255;

// What the printing program reads, a byte more than a session may have, so that a longer input is seen to be longer; its log space;
// and a text space that always has room for the whole listing.
pub const INPUT: usize = GREATEST_SESSION + 1;

pub const LOG_SPACE: usize = 65536;

pub const TEXT_SPACE: usize = 3 * LOG_SPACE;
