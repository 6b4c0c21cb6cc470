// Attempts counters: where they lie, how they count, and the tries that they leave.
ghost use Rattle.std.specs.Prelude.{◌≡◌, length};
ghost use Rattle.model.specs.Sizes.{card_size};
ghost use Rattle.model.specs.Bits.{tries_left};
ghost use Rattle.model.specs.Device as model;
ghost use Rattle.model.specs.At88sc1608.{at88sc1608, counter_at};
ghost use Rattle.security.specs.Counter.{spent_of};

use sizes::{ATTEMPTS, COUNTERS, PASSWORDS};

// A counter after a failed attempt, and the tries that are then left.
#[derive(Clone, Copy)]
pub struct SpentCounter {
    pub value: u8,
    pub tries: u8,
}

// Where the attempts counter of a selector lies; its password follows.
pub fn counter_at(selector: u8) -> usize
    ensures { result ≡ counter_at selector }
{
    let k = selector as usize;
    PASSWORDS + k % 8 * 8 + k / 8 % 2 * 4
}

// The tries that a counter leaves: its 1 bits.
#[tactic(auto, using(crate::proofs::CounterLaws::ones_left))]
pub fn tries_left(counter: u8) -> u8
    ensures { result ≡ tries_left counter }
{
    counter.count_ones() as u8
}

// A failed attempt: the lowest 1 bit is cleared.
pub fn spent(counter: u8) -> SpentCounter
    ensures { spent_of result ≡ model.spent at88sc1608 counter }
{
    let value = counter & counter.saturating_sub(1);
    SpentCounter {
        value,
        tries: tries_left(value),
    }
}

// helper: the tries left of every counter of a card, by selector, then that of authentication.
pub fn tries_of(card: &[u8]) -> [u8; COUNTERS]
    requires { length card.now ≡ card_size }
    ensures { result ≡ model.tries_of at88sc1608 card.now }
{
    let mut tries = [0; COUNTERS];
    for k in 0..16 {
        tries[k] = tries_left(card[counter_at(k as u8)]);
    }
    tries[16] = tries_left(card[ATTEMPTS]);
    tries
}
