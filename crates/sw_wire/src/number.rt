// The numbers in a line.
ghost use Rattle.std.specs.Prelude.{◌≡◌, ◌≤◌, ◌+◌, ◌-◌, ◌*◌, IsTrue};
ghost use Rattle.sw_wire.specs.Numbers.{number_of, number_from, can_follow};

/// The number of at most so much that decimal digits write. None for another byte, a needless leading zero, no digit,
/// or a greater number (docs/PROTOCOL.md, The script of a session).
pub fn read_number(most: u32, digits: &[u8]) -> Option<u32>
    ensures { result ≡ number_of most digits.now }
{
    match digits {
        [] | [b'0', _, ..] => None,
        _ => read_digits(most, digits),
    }
}

fn read_digits(most: u32, digits: &[u8]) -> Option<u32>
    ensures { result ≡ number_from most 0 digits.now }
{
    let mut number = 0;
    for digit in digits {
        if !can_follow(most, number, *digit) {
            return None;
        }
        number = 10 * number + u32::from(*digit - b'0');
    }
    Some(number)
}

// whether the byte is a digit that may stand behind the digits of this number
fn can_follow(most: u32, number: u32, digit: u8) -> bool
    ensures value { result ≡ can_follow most number digit }
    ensures fits { IsTrue result → (48 ≤ digit) × (digit ≤ 57) × (10 * number + (digit - 48) ≤ most) }
{
    digit >= b'0'
        && digit <= b'9'
        && 10 * u64::from(number) + u64::from(digit - b'0') <= u64::from(most)
}
