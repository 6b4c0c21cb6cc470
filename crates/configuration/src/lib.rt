// The configuration's bytes, read and written by the table of permissions, and the answer to reset.
#![tactic(auto)]

ghost use Rattle.std.specs.Prelude.{◌≡◌, cond, ◌++◌, ◌+◌, ◌<◌, ◌≤◌, length, drop};
ghost use Rattle.model.specs.At88sc1608.{configuration_at};
ghost use Rattle.model.specs.Sizes.{card_size};
ghost use Rattle.model.specs.Lists.{at};
ghost use Rattle.model.specs.Instruction.{read_configuration, write_configuration};
ghost use Rattle.model.specs.Single.{apply};
ghost use Rattle.access.specs.Column.{allows_of};
ghost use Rattle.access.specs.VolatileState.{volatile_of};

use access::rights::{Access, Column};
use access::volatile::Volatile;
use sizes::{CONFIGURATION, FUSES};

pub mod page;
pub mod reset;
pub mod reversal;

// The byte at a configuration address as it is answered: $00 where it may not be read.
fn shown(card: &[u8], column: &Column, address: u8) -> u8
    requires { (length card.now ≡ card_size) × (address < 128) }
    ensures { result
        ≡ cond (allows_of column.now address) (at card.now (configuration_at + address)) 0 }
{
    let byte = card[CONFIGURATION + address as usize];
    if column.allows(address) { byte } else { 0 }
}

// helper: read configuration.
pub fn read_configuration(
    card: &[u8],
    state: Volatile,
    address: u8,
    count: usize,
    response: &mut [u8],
)
    requires { (length card.now ≡ card_size) × (address + count ≤ 128) × (count ≤ length response.old) }
    ensures { response.new
        ≡ (apply card.now (volatile_of state) (read_configuration address count)).report.answer ++ drop count response.old }
{
    let column = Column::new(Access::Read, card[FUSES], state.active);
    for (i, byte) in response[..count].iter_mut().enumerate() {
        *byte = shown(card, &column, address + i as u8);
    }
}

// helper: write configuration.
pub fn write_configuration(card: &mut [u8], state: Volatile, address: u8, bytes: &[u8])
    requires { (length card.old ≡ card_size) × (address < 128) }
    ensures { card.new ≡ (apply card.old (volatile_of state) (write_configuration address bytes.now)).card }
{
    let column = Column::new(Access::Write, card[FUSES], state.active);
    let first = address / 16 * 16;
    let base = CONFIGURATION + first as usize;
    let low = address as usize % 16;
    page::store_column(&mut card[base..base + 16], first, low, bytes, &column);
}
