// The count of the records, from decimal digits.
ghost use Rattle.std.specs.Prelude.{◌≡◌};
ghost use Rattle.write_session.specs.Decimal.{appended, decimal};

use sizes::MOST_RECORDS;

// A number with one more digit. More records than a session may have are too many whatever follows, so such a number is kept.
fn append(count: usize, digit: u8) -> usize
    ensures { result ≡ appended count digit }
{
    if MOST_RECORDS < count {
        count
    } else {
        10 * count + digit.saturating_sub(b'0') as usize
    }
}

pub fn count_of(digits: &[u8]) -> usize
    ensures { result ≡ decimal 0 digits.now }
{
    digits.iter().fold(0, |count, digit| append(count, *digit))
}
