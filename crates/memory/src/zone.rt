// Reading and writing the selected zone.
ghost use Rattle.std.specs.Prelude.{◌≡◌, ◌++◌, ◌+◌, ◌%◌, ◌<◌, ◌≤◌, length, drop};
ghost use Rattle.model.specs.Sizes.{card_size};
ghost use Rattle.model.specs.Lists.{at, tab};
ghost use Rattle.model.specs.At88sc1608.{at88sc1608};
ghost use Rattle.model.specs.Staging.{final_values};
ghost use Rattle.model.specs.Instruction.{read_zone, write_zone};
ghost use Rattle.model.specs.Single.{apply};
ghost use Rattle.memory.specs.ZonePage.{merges_of, StageRight};
ghost use Rattle.access.specs.VolatileState.{volatile_of};

use crate::page;
use access::register;
use access::rights::{zone_readable, zone_writable};
use access::volatile::Volatile;
use sizes::{FUSES, REGISTERS};
use slices::{copy, fill};

// count bytes of the 256 from base on, starting at the address and going on at the first past the last.
fn roll(card: &[u8], base: usize, address: usize, count: usize, response: &mut [u8])
    requires { (base + 256 ≤ length card.now) × (address < 256) × (count ≤ length response.old) }
    ensures { response.new
        ≡ tab (λ k. at card.now (base + (address + k) % 256)) count ++ drop count response.old }
{
    // Kept as a while: a turn goes on by a run of bytes, which no `for` counts.
    let mut i = 0;
    let mut next = address;
    while i < count {
        let run = (count - i).min(256 - next);
        copy(response, i, card, base + next, run);
        i += run;
        next = 0;
    }
}

// helper: read zone. Where it may not be read, each byte is answered by F.
#[tactic(auto, using(crate::proofs::ZoneMemoryLaws::read_zone_shut, crate::proofs::ZoneMemoryLaws::read_zone_open))]
pub fn read_zone(card: &[u8], state: Volatile, address: u8, count: usize, response: &mut [u8])
    requires { (length card.now ≡ card_size) × (state.zone.0 < 8) × (count ≤ length response.old) }
    ensures { response.new
        ≡ (apply card.now (volatile_of state) (read_zone address count)).report.answer ++ drop count response.old }
{
    let zone = state.zone.0 as usize;
    let fuses = card[FUSES];
    let register = card[REGISTERS + zone];
    let readable = zone_readable(fuses, register, state);
    if !readable {
        fill(response, count, fuses);
        return;
    }
    roll(card, zone * 256, address as usize, count, response);
}

// Whether a write to a zone clears bits only.
fn merges(fuses: u8, register: u8) -> bool
    ensures { result ≡ merges_of fuses register }
{
    fuses != 7 && register::fields(register).pgo
}

// helper: write zone.
pub fn write_zone(card: &mut [u8], state: Volatile, address: u8, bytes: &[u8])
    requires { (length card.old ≡ card_size) × (state.zone.0 < 8) }
    ensures { card.new ≡ (apply card.old (volatile_of state) (write_zone address bytes.now)).card }
{
    let zone = state.zone.0 as usize;
    let fuses = card[FUSES];
    let register = card[REGISTERS + zone];
    if !zone_writable(fuses, register, state) {
        return;
    }
    let pgo = merges(fuses, register);
    let base = zone * 256 + address as usize / 16 * 16;
    let end = base + 16;
    let low = address as usize % 16;
    page::store(&mut card[base..end], low, bytes, pgo);
}

// helper: whether the selected zone may be written, at whatever address.
#[tactic(auto, using(crate::proofs::ZoneMemoryLaws::stage_right))]
pub fn may_stage(card: &[u8], state: Volatile) -> bool
    requires { (length card.now ≡ card_size) × (state.zone.0 < 8) }
    ensures { StageRight result card.now (volatile_of state) }
{
    let zone = state.zone.0 as usize;
    zone_writable(card[FUSES], card[REGISTERS + zone], state)
}

// helper: what the bytes of a staged write are to leave, written at the front of a space.
pub fn final_values(card: &[u8], state: Volatile, address: u8, bytes: &[u8], values: &mut [u8])
    requires { (length card.now ≡ card_size) × (state.zone.0 < 8) × (length bytes.now ≤ 8) × (length bytes.now ≤ length values.old) }
    ensures { values.new
        ≡ final_values at88sc1608 card.now state.zone.0 address bytes.now
        ++ drop (length bytes.now) values.old }
{
    let zone = state.zone.0 as usize;
    let pgo = merges(card[FUSES], card[REGISTERS + zone]);
    let base = zone * 256 + address as usize / 16 * 16;
    let low = address as usize % 16;
    page::merge(&card[base..base + 16], low, bytes, pgo, values);
}
