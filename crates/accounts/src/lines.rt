//! Lines of account files, before their fields are looked at.
#![tactic(auto)]

ghost use Rattle.std.specs.Prelude.{Some};
ghost use Rattle.idtext.specs.First.{Gives};
ghost use Rattle.accounts.specs.Lines.{is_kept};

use idtext::{MOST_LINE_BYTES, TextCode, TextFault, is_skipped};

/// How many lines an account file may have, skipped ones among them.
pub const MOST_LINES: u64 = 65536;

/// Whether a line has a row, or what is wrong with it as a whole: `TooManyLines`, `LineTooLong` or
/// `CompatLine`, in this order.
pub fn keeps(number: u64, line: &[u8]) -> Result<bool, TextFault>
    ensures { Gives (λ kept. kept) (λ fault. Some fault) result (is_kept number line.now) }
{
    let refused = |code| TextFault { code, line: number };
    if number > MOST_LINES {
        return Err(refused(TextCode::TooManyLines));
    }
    if line.len() > MOST_LINE_BYTES {
        return Err(refused(TextCode::LineTooLong));
    }
    if is_skipped(line) {
        return Ok(false);
    }
    match line {
        [b'+' | b'-', ..] => Err(refused(TextCode::CompatLine)),
        _ => Ok(true),
    }
}
