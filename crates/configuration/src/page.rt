// The 16-byte page of the configuration that a write goes to: the address counts up and wraps inside it.
ghost use Rattle.std.specs.Prelude.{◌≡◌, cond, ◌+◌, ◌%◌, ◌<◌, length};
ghost use Rattle.model.specs.Lists.{stores};
ghost use Rattle.access.specs.Column.{allows_of};
ghost use Rattle.access.specs.VolatileState.{active_of};
ghost use Rattle.configuration.specs.ConfigurationPage.{allowed_of, allowed_in};

use access::rights::Column;

// What a byte of the configuration holds after a write: the old one where it may not be written.
fn allowed(column: &Column, address: u8, old: u8, new: u8) -> u8
    ensures { result ≡ cond (allows_of column.now address) new old }
{
    if column.allows(address) { new } else { old }
}

// helper: bytes stored into the page of the configuration that starts at the address first, from place low on, by a column of the table.
pub fn store_column(page: &mut [u8], first: u8, low: usize, bytes: &[u8], column: &Column)
    requires { (length page.old ≡ 16) × (low < 16) × (first < 128) }
    ensures { page.new ≡ stores (allowed_in column.now first) (λ k. (low + k) % 16) bytes.now 0 page.old }
{
    for (i, byte) in bytes.iter().enumerate() {
        let at = (low + i) % 16;
        page[at] = allowed(column, first + at as u8, page[at], *byte);
    }
}

// helper: the same by the codes of a column and the password that is active.
pub fn store_allowed(
    page: &mut [u8],
    first: u8,
    low: usize,
    bytes: &[u8],
    codes: &[u8; 7],
    active: Option<u8>,
)
    requires { (length page.old ≡ 16) × (low < 16) × (first < 128) }
    ensures { page.new
        ≡ stores (allowed_of codes.now first (active_of active)) (λ k. (low + k) % 16) bytes.now 0 page.old }
{
    store_column(page, first, low, bytes, &Column::of_codes(codes, active));
}
