// Cells written while the fuel lasts, which each of them uses up by one: the last one that it lasts for is spoilt.
ghost use Rattle.std.specs.Prelude.{◌≡◌, [], ◌∷◌, ◌<◌, length};
ghost use Rattle.model.specs.Cells.{cell};
ghost use Rattle.model.specs.Staging as model;
ghost use Rattle.model.specs.At88sc1608.{at88sc1608};
ghost use Rattle.staging.specs.Fuel.{tear_of, fuel_of, junk_of, Writes, WritesRow};

use crate::tear::Tear;
use sizes::FLAG;

// How many cells are written, the spoilt one among them, which is the last; and the junk that it is left with.
#[derive(Clone, Copy, PartialEq, Eq)]
pub struct Fuel {
    pub cells: u16,
    pub junk: u8,
}

// What a spoilt cell holds: the junk, and of the flag bit 0 alone is the junk's.
fn spoilt(place: usize, value: u8, junk: u8) -> u8
    ensures { result ≡ (model.spoilt at88sc1608 junk (cell place value)).value }
{
    if place == FLAG {
        value / 2 * 2 + junk % 2
    } else {
        junk
    }
}

impl Fuel {
    // Under what is armed: more than any row has cells, where nothing is.
    pub fn new(tear: Option<Tear>) -> Fuel
        ensures cells { result.cells ≡ fuel_of (tear_of tear) }
        ensures junk { result.junk ≡ junk_of (tear_of tear) }
    {
        match tear {
            None => Fuel {
                cells: 256,
                junk: 0,
            },
            Some(tear) => Fuel {
                cells: u16::from(tear.cells) + 1,
                junk: tear.junk,
            },
        }
    }

    // helper: one cell.
    #[tactic(auto, using(crate::proofs::CellPutLaws::one_cell))]
    pub fn put(&mut self, card: &mut [u8], place: usize, value: u8)
        requires { place < length card.old }
        ensures { Writes self.old (cell place value ∷ []) card.old self.new card.new }
    {
        card[place] = match self.cells {
            0 => return,
            1 => spoilt(place, value, self.junk),
            _ => value,
        };
        self.cells -= 1;
    }

    // helper: cells for values, each at the place of its number.
    pub fn put_row<F: Fn(usize) -> usize>(&mut self, card: &mut [u8], values: &[u8], place: F)
        requires placed { (k : _) → k < length values.now → F.pre place k }
        requires inside { (k p : _) → k < length values.now → F.post place k p → p < length card.old }
        ensures { WritesRow (F.post place) self.old values.now card.old self.new card.new }
    {
        for (i, value) in values.iter().enumerate() {
            self.put(card, place(i), *value);
        }
    }
}
