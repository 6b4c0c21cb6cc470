// What a kind tells, with a record's count: its fixed fields and their range, its data, and how long its answer is.
#![tactic(auto)]

ghost use Rattle.std.specs.Prelude.{◌≡◌, cond, ◌&&◌, [], ◌+◌, ◌*◌, ◌/◌, ◌%◌, ◌^◌, ◌≤◌, eqb};
ghost use Rattle.model.specs.At88sc1608.{at88sc1608};
ghost use Rattle.model.specs.Record as model;
ghost use Rattle.laws.specs.BusyLaws.{full_answer};
ghost use Rattle.kinds.specs.KindNumber.{kind_number};

use crate::kind::Kind;

pub mod kind;

// A hexadecimal digit for each kind: a column of this table, read downwards, is a constant. The lowest digit, which no kind 0 needs, is that
// of kind 16. A count less one has the bits of the third column. A record has the bytes of the fourth, and as many data bytes as are left of the
// count when it is shifted by the fifth: all of it, or nothing. Where n stands the count says how long the answer is, and the digit is not used.
// Digits of a number, and no array or match: a shift takes one out of a register, without a branch and without a read of memory.
//
//                               fixed     bits of the    bits of    least      shift of     answer
//   kind                        fields    first field    a count    bytes      the count    bytes
//   15 staged write             2            8           3          3 and n    0            0
//   14 poll                     0            8           8          1          8            1
//   13 wait                     1            8           8          2          8            0
//   12 verify authentication    1            1           8         10          8            0
//   11 begin authentication     0            8           8          1          8            0
//   10 verify password          1            4           8          5          8            0
//    9 write fuses              0            8           8          1          8            0
//    8 read fuses               0            8           8          1          8            1
//    7 write configuration      2            7           4          3 and n    0            0
//    6 read configuration       2            7           7          3          8            0 n
//    5 write zone               2            8           4          3 and n    0            0
//    4 read zone                2            8           8          3          8            0 n
//    3 select                   1            3           8          2          8            0
//    2 reset                    0            8           8          1          8            4
//    1 power cycle              0            8           8          1          8            0
//   16 arm                      2            8           8          3          8            0
const FIXED_FIELDS: u64 = 0x2011_0100_2222_1002;

const FIRST_FIELD_BITS: u64 = 0x8881_8488_7788_3888;

const COUNT_BITS: u64 = 0x3888_8888_4748_8888;

const LEAST_BYTES: u64 = 0x312A_1511_3333_2113;

const COUNT_SHIFT: u64 = 0x0888_8888_0808_8888;

const ANSWER_BYTES: u64 = 0x0100_0001_0000_0400;

// The digit of a kind in a column.
fn digit(column: u64, kind: Kind) -> usize
    ensures { result ≡ column / 2 ^ (kind_number kind % 16 * 4) % 16 }
{
    let from = column >> (u8::from(kind) % 16 * 4);
    (from % 16) as usize
}

// How many bytes a zone read asks for: 0 stands for 256.
pub fn read_count(n: u8) -> u16
    ensures { result ≡ cond (eqb n 0) 256 n }
{
    if n == 0 { 256 } else { n as u16 }
}

impl Kind {
    // How many fixed fields a kind has.
    pub fn fixed_fields(self) -> usize
        ensures { result ≡ model.fixed_fields (kind_number self) }
    {
        digit(FIXED_FIELDS, self)
    }

    // Whether the fixed fields are in range. A wait of no time is not, nor a read past the configuration's 128 bytes. By & and | for it is
    // asked of every record: && and || would branch.
    pub fn in_range(self, a: u8, n: u8) -> bool
        ensures { result ≡ model.in_range (kind_number self) a n }
    {
        let above = a as usize >> digit(FIRST_FIELD_BITS, self);
        let less_one = (n as usize + 255) % 256;
        let over = less_one >> digit(COUNT_BITS, self);
        let timed = (self != Kind::Wait) | (1 <= a);
        let inside = (self != Kind::ReadConfiguration) | (a as usize + n as usize <= 128);
        timed & inside & (above + over == 0)
    }

    // How long a record is.
    pub fn record_length(self, n: u8) -> usize
        ensures { result ≡ 1 + model.fixed_fields (kind_number self) + model.data_length (kind_number self) n }
    {
        let least = digit(LEAST_BYTES, self);
        let data = n as usize >> digit(COUNT_SHIFT, self);
        least + data
    }

    // How long the answer in full is, on which the first field and the data have no bearing.
    pub fn answer_length(self, n: u8) -> u16
        ensures { result ≡ full_answer at88sc1608 (model.made (kind_number self) 0 n []) }
    {
        match self {
            Kind::ReadZone => read_count(n),
            Kind::ReadConfiguration => n as u16,
            _ => digit(ANSWER_BYTES, self) as u16,
        }
    }

    // Whether a response can be this long.
    pub fn length_fits(self, response: usize) -> bool
        ensures { result ≡ model.length_fits (kind_number self) response }
    {
        match self {
            Kind::ReadZone => (1..=256).contains(&response),
            Kind::ReadConfiguration => (1..=128).contains(&response),
            _ => response == digit(ANSWER_BYTES, self),
        }
    }
}
