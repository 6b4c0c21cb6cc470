// Runs of bytes in slices: copied, filled, joined into a number.
// Kept over the library's methods: these contracts are in the model's words, `sets` and `tab`, which the callers' proofs use. And `copy_from_slice`
// of parts of unknown length asks C for `memmove`, which nothing else does.
#![tactic(auto)]

ghost use Rattle.std.specs.Prelude.{◌≡◌, ◌++◌, ◌+◌, ◌≤◌, length, take, drop};
ghost use Rattle.std.proofs.lemmas.List.Edits.{sets};
ghost use Rattle.model.specs.Lists.{tab};
ghost use Rattle.model.specs.Numbers.{number_at};

// helper: count bytes of one slice from start on, put into another from a place on.
pub fn copy(to: &mut [u8], at: usize, from: &[u8], start: usize, count: usize)
    requires { (at + count ≤ length to.old) × (start + count ≤ length from.now) }
    ensures { to.new ≡ sets to.old at (take count (drop start from.now)) }
{
    for i in 0..count {
        to[at + i] = from[start + i];
    }
}

// helper: the first bytes of a slice, each made the same byte.
pub fn fill(to: &mut [u8], count: usize, byte: u8)
    requires { count ≤ length to.old }
    ensures { to.new ≡ tab (λ k. byte) count ++ drop count to.old }
{
    to[..count].fill(byte);
}

// helper: the three bytes from a place on, joined into a number of 24 bits, lowest byte first.
pub fn word_at(bytes: &[u8], at: usize) -> u32
    requires { at + 3 ≤ length bytes.now }
    ensures { result ≡ number_at bytes.now at 3 }
{
    u32::from_le_bytes([bytes[at], bytes[at + 1], bytes[at + 2], 0])
}
