// The trailer of a session and of a log: a place, a count, and two bytes that tell which of them it ends.
#![tactic(auto)]

ghost use Rattle.std.specs.Prelude.{◌≡◌, [], ◌∷◌, ◌++◌, ◌+◌, ◌≤◌, length};
ghost use Rattle.std.proofs.lemmas.List.Edits.{sets};
ghost use Rattle.model.specs.Numbers.{bytes_of};

use record::number;

// helper: a trailer put into a space from a place on.
pub fn put(space: &mut [u8], at: usize, place: usize, count: usize, first: u8, last: u8)
    requires { at + 8 ≤ length space.old }
    ensures { space.new ≡ sets space.old at (bytes_of 4 place ++ (bytes_of 2 count ++ (first ∷ last ∷ []))) }
{
    number::put::<4>(space, at, place);
    number::put::<2>(space, at + 4, count);
    space[at + 6] = first;
    space[at + 7] = last;
}
