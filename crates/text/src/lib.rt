// Text put into a space from a place on; what the space has no room for is left out.
#![tactic(auto)]

ghost use Rattle.std.specs.Prelude.{◌+◌, ◌*◌, ◌<◌, ◌^◌, ◌≡◌, [], ◌∷◌, length};
ghost use Rattle.text.specs.Put.{Puts};
ghost use Rattle.text.specs.Text as model;

// The character of a hexadecimal digit.
fn hex_digit(digit: u8) -> u8
    requires { digit < 16 }
    ensures { result ≡ model.hex_digit digit }
{
    if digit < 10 {
        b'0' + digit
    } else {
        b'A' + (digit - 10)
    }
}

// A space for text, and the place past what was put there.
#[derive(Drop)]
pub struct Page<'a> {
    pub space: &'a mut [u8],
    pub at: usize,
}

impl<'a> Page<'a> {
    // A page with nothing on it.
    pub fn new(space: &'a mut [u8]) -> Page<'a>
        ensures same_space { result.space.ghost_name ≡ space.entry.ghost_name }
        ensures bytes { result.space.now ≡ space.old }
        ensures at { result.at ≡ 0 }
    {
        Page { space, at: 0 }
    }

    // helper: one byte.
    pub fn put(&mut self, byte: u8)
        requires { self.old.at + 1 < 2 ^ 64 }
        ensures { Puts self.old (byte ∷ []) self.new }
    {
        if self.at < self.space.len() {
            self.space[self.at] = byte;
        }
        self.at += 1;
    }

    // helper: the bytes of a slice as they are. The walks over a slice stay three: a closure's clause would be longer than each.
    pub fn put_all(&mut self, bytes: &[u8])
        requires { self.old.at + length bytes.now < 2 ^ 64 }
        ensures { Puts self.old bytes.now self.new }
    {
        for byte in bytes {
            self.put(*byte);
        }
    }

    // helper: a space and a byte in hexadecimal.
    pub fn put_hex(&mut self, byte: u8)
        requires { self.old.at + 3 < 2 ^ 64 }
        ensures { Puts self.old (model.hex byte) self.new }
    {
        self.put_all(&[b' ', hex_digit(byte / 16), hex_digit(byte % 16)]);
    }

    // helper: every byte of a slice so.
    pub fn put_hexes(&mut self, bytes: &[u8])
        requires { self.old.at + 3 * length bytes.now < 2 ^ 64 }
        ensures { Puts self.old (model.hexes bytes.now) self.new }
    {
        for byte in bytes {
            self.put_hex(*byte);
        }
    }

    // helper: a number in decimal.
    pub fn put_decimal(&mut self, number: usize)
        requires { self.old.at + length (model.decimal number) < 2 ^ 64 }
        ensures { Puts self.old (model.decimal number) self.new }
    {
        if 10 <= number {
            self.put_decimal(number / 10);
        }
        self.put(b'0' + (number % 10) as u8);
    }

    // helper: every byte of a slice as a number, each behind a space.
    pub fn put_decimals(&mut self, numbers: &[u8])
        requires { self.old.at + 5 * length numbers.now < 2 ^ 64 }
        ensures { Puts self.old (model.decimals numbers.now) self.new }
    {
        for number in numbers {
            self.put(b' ');
            self.put_decimal(*number as usize);
        }
    }
}
