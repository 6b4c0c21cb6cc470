// The 16-byte page of a zone that a write goes to: the address counts up and wraps inside it.
ghost use Rattle.std.specs.Prelude.{◌≡◌, ◌++◌, ◌+◌, ◌%◌, ◌≤◌, ◌<◌, length, drop};
ghost use Rattle.model.specs.Lists.{at, tab, stores};
ghost use Rattle.memory.specs.ZonePage.{merged_of, StoresBy};

// What a byte of a zone holds after a write: with PGO, old AND new.
fn merged(pgo: bool, old: u8, new: u8) -> u8
    ensures { result ≡ merged_of pgo old new }
{
    if pgo { old & new } else { new }
}

// helper: bytes stored into a page, from place low on: each place then holds what the rule says, by the place, its old byte and the new one.
#[tactic(auto, using(laws::specs::Loops::stores_next))]
pub fn store_by<F: Fn(usize, u8, u8) -> u8>(page: &mut [u8], low: usize, bytes: &[u8], rule: F)
    requires page { (length page.old ≡ 16) × (low < 16) }
    requires ruled { (i old new : _) → i < 16 → old < 256 → new < 256 → F.pre rule i old new }
    ensures { StoresBy (F.post rule) (λ k. (low + k) % 16) bytes.now page.old page.new }
{
    for (i, byte) in bytes.iter().enumerate() {
        let at = (low + i) % 16;
        page[at] = rule(at, page[at], *byte);
    }
}

// helper: the same by the rule of a zone.
pub fn store(page: &mut [u8], low: usize, bytes: &[u8], pgo: bool)
    requires { (length page.old ≡ 16) × (low < 16) }
    ensures { page.new ≡ stores (λ i. merged_of pgo) (λ k. (low + k) % 16) bytes.now 0 page.old }
{
    store_by(page, low, bytes, |_, old, new| merged(pgo, old, new));
}

// helper: what such bytes would leave in the page, one value for each of them, written at the front of a space.
#[tactic(auto, using(laws::specs::Loops::tab_start, laws::specs::Loops::tab_next, laws::specs::Loops::tab_done))]
pub fn merge(page: &[u8], low: usize, bytes: &[u8], pgo: bool, values: &mut [u8])
    requires { (length page.now ≡ 16) × (low < 16) × (length bytes.now ≤ 8) × (length bytes.now ≤ length values.old) }
    ensures { values.new
        ≡ tab (λ k. merged_of pgo (at page.now ((low + k) % 16)) (at bytes.now k)) (length bytes.now)
        ++ drop (length bytes.now) values.old }
{
    for (i, byte) in bytes.iter().enumerate() {
        values[i] = merged(pgo, page[(low + i) % 16], *byte);
    }
}
