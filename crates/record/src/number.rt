// Numbers of a few bytes, lowest byte first.
ghost use Rattle.std.specs.Prelude.{◌≡◌, ◌+◌, ◌^◌, ◌≤◌, ◌<◌, length};
ghost use Rattle.std.proofs.lemmas.List.Edits.{sets};
ghost use Rattle.model.specs.Numbers.{bytes_of, number_at};

// helper: the number in the WIDTH bytes from a place on.
pub fn get<const WIDTH: usize>(bytes: &[u8], at: usize) -> usize
    requires within { at + WIDTH ≤ length bytes.now }
    requires narrow { WIDTH ≤ 4 }
    ensures number { result ≡ number_at bytes.now at WIDTH }
    ensures range { result < 256 ^ WIDTH }
{
    let mut number = 0;
    for i in (0..WIDTH).rev() {
        number = 256 * number + bytes[at + i] as usize;
    }
    number
}

// helper: a number put into the WIDTH bytes from a place on.
pub fn put<const WIDTH: usize>(bytes: &mut [u8], at: usize, number: usize)
    requires { at + WIDTH ≤ length bytes.old }
    ensures { bytes.new ≡ sets bytes.old at (bytes_of WIDTH number) }
{
    let mut rest = number;
    for i in 0..WIDTH {
        bytes[at + i] = (rest % 256) as u8;
        rest /= 256;
    }
}
