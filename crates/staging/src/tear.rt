// What is armed, where anything is: a tear after so many cell writes, which leaves a junk byte.
#[derive(Clone, Copy, PartialEq, Eq)]
pub struct Tear {
    pub cells: u8,
    pub junk: u8,
}
