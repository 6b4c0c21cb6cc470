// A staged write and its finishing: their cells in their order.
ghost use Rattle.std.specs.Prelude.{◌≡◌, ◌≤◌, ◌<◌, length};
ghost use Rattle.model.specs.Sizes.{card_size};
ghost use Rattle.model.specs.Staging.{finish_cells, stage_cells};
ghost use Rattle.model.specs.At88sc1608.{at88sc1608};
ghost use Rattle.staging.specs.Fuel.{Writes};

use crate::cells::Fuel;
use crate::{IDLE, READY};
use access::volatile::Zone;
use sizes::{FLAG, STAGED, VALUES};

// helper: the values to the page of the zone, on from its last place to its first, then the flag to idle.
pub fn finish(card: &mut [u8], zone: Zone, address: u8, values: &[u8], fuel: &mut Fuel)
    requires { (length card.old ≡ card_size) × (zone.0 < 8) × (length values.now ≤ 8) }
    ensures { Writes fuel.old (finish_cells at88sc1608 zone.0 address values.now) card.old fuel.new card.new }
{
    let base = zone.0 as usize * 256 + address as usize / 16 * 16;
    let low = address as usize % 16;
    fuel.put_row(card, values, |k| base + (low + k) % 16);
    fuel.put(card, FLAG, IDLE);
}

// helper: zone, address, length and values to the staging bytes, the flag to ready, then as above.
pub fn stage(card: &mut [u8], zone: Zone, address: u8, values: &[u8], fuel: &mut Fuel)
    requires { (length card.old ≡ card_size) × (zone.0 < 8) × (length values.now ≤ 8) }
    ensures { Writes fuel.old (stage_cells at88sc1608 zone.0 address values.now) card.old fuel.new card.new }
{
    fuel.put(card, STAGED, zone.0);
    fuel.put(card, STAGED + 1, address);
    fuel.put(card, STAGED + 2, values.len() as u8);
    fuel.put_row(card, values, |k| VALUES + k);
    fuel.put(card, FLAG, READY);
    finish(card, zone, address, values, fuel);
}
