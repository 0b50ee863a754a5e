// The words behind a line's path.
ghost use Rattle.sw_wire.specs.Words.{rest_words};
ghost use Rattle.sw_wire.specs.Requests.{length_by, nothing_by, IsRead};

use crate::LineFault;
use crate::number::read_number;
use crate::words::cut_word;

const MOST_LENGTH: u32 = 9_999_999;

/// What is left of a line, where it is one number of bytes: one to seven digits without a needless leading zero.
pub fn read_length(left: Option<&[u8]>) -> Result<u32, LineFault>
    ensures { IsRead result (length_by (rest_words left.entry)) }
{
    match left {
        None => Err(LineFault::NotARequest),
        Some(rest) => {
            let (digits, more) = cut_word(rest);
            read_nothing(more)?;
            match read_number(MOST_LENGTH, digits) {
                None => Err(LineFault::NotARequest),
                Some(length) => Ok(length),
            }
        }
    }
}

/// Nothing, where nothing is left of a line.
pub fn read_nothing(left: Option<&[u8]>) -> Result<(), LineFault>
    ensures { IsRead result (nothing_by (rest_words left.entry)) }
{
    match left {
        None => Ok(()),
        Some(_) => Err(LineFault::NotARequest),
    }
}
