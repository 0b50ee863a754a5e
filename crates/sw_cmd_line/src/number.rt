// The number of a made workload.
ghost use Rattle.std.specs.Prelude.{◌≡◌, ◌≤◌, IsTrue};
ghost use Rattle.sw_cmd_line.specs.Forms.{number_of, number_from, can_follow};

/// One to six digits, with no 0 before others.
pub(crate) fn read_number(digits: &[u8]) -> Option<u32>
    ensures { result ≡ number_of digits.now }
{
    match digits {
        [] | [b'0', _, ..] => None,
        _ => read_digits(digits),
    }
}

fn read_digits(digits: &[u8]) -> Option<u32>
    ensures { result ≡ number_from 0 digits.now }
{
    let mut number = 0;
    for digit in digits {
        if !can_follow(number, *digit) {
            return None;
        }
        number = 10 * number + u32::from(*digit - b'0');
    }
    Some(number)
}

// whether the byte is a digit that a number of at most six digits may have behind these
fn can_follow(number: u32, digit: u8) -> bool
    ensures value { result ≡ can_follow number digit }
    ensures fits { IsTrue result → (48 ≤ digit) × (digit ≤ 57) × (number ≤ 99999) }
{
    digit >= b'0' && digit <= b'9' && number <= 99_999
}
