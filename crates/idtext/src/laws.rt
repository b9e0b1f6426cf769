//! Laws over what this crate reads and writes. Each is the contract of a function that does
//! nothing.
#![tactic(auto)]

ghost use Rattle.idtext.specs.Laws.{AreForms, AreNoForms, BytesStandForThemselves};
ghost use Rattle.idtext.specs.Laws.{CNumbersAreIds, DecimalsAreIds};
ghost use Rattle.idtext.specs.Laws.{EscapedIsReadBack, EscapedIsVisible, FrontIsReadFirst};
ghost use Rattle.idtext.specs.Laws.{NothingIsEscaped, NothingStandsForNothing, OthersAreOctal};
ghost use Rattle.idtext.specs.Laws.{VisibleStands, WrittenIdIsReadBack};
ghost use Rattle.idtext.specs.NameLaws.{LawfulNamesAreTheseBytes};
ghost use Rattle.idtext.specs.NumberLaws.{CNumbersAreTheirDigits, DecimalsAreTheirDigits};

/// Escapes are read from the left, one after the other, and none reaches into the next; what
/// `push_escaped` writes is what `first_character` reads back, one after the other; and each form
/// of vis(3) that is read stands for the byte that vis(3) gives it.
pub fn escapes_are_read_from_the_left()
    ensures front { FrontIsReadFirst }
    ensures empty { NothingStandsForNothing }
    ensures back { EscapedIsReadBack }
    ensures forms { AreForms }
{}

/// A backslash that begins none of these forms: it is bad with nothing or a NUL after it, and
/// before `^` or `M`; before any other byte it stands for itself. What stands after it is then read
/// by itself. A byte that is no backslash stands for itself. So the bytes of a text are as they
/// stand in it, UTF-8 and all others too, but for the forms, each of which is one byte.
pub fn other_backslashes_are_bad_or_plain()
    ensures characters { AreNoForms }
    ensures bytes { BytesStandForThemselves }
{}

/// Whatever bytes `push_escaped` is given, it writes bytes from `!` to `~` alone, so that none of
/// them is a control byte, a space or a newline. Of these it writes each but the backslash as it
/// is, and any other byte as a backslash and three octal digits.
pub fn escaped_bytes_are_visible()
    ensures visible { EscapedIsVisible }
    ensures empty { NothingIsEscaped }
    ensures stands { VisibleStands }
    ensures others { OthersAreOctal }
{}

/// What `decimal` and `c_number` read is never above [`GREATEST_ID`](crate::GREATEST_ID), and an id
/// that `push_number` wrote is read back by `decimal`. Each is what the digits of the text write,
/// one after the other: of `decimal` decimal ones, and of `c_number` decimal, octal or hexadecimal
/// ones, as the text begins.
pub fn numbers_read_are_ids()
    ensures decimals { DecimalsAreIds }
    ensures c_numbers { CNumbersAreIds }
    ensures back { WrittenIdIsReadBack }
    ensures decimal_digits { DecimalsAreTheirDigits }
    ensures c_digits { CNumbersAreTheirDigits }
{}

/// A lawful name is one byte or more, none of them a comma, a colon, a newline or NUL, and the
/// first neither `#` nor `+` nor `-`; and any such text is one.
pub fn lawful_names_are_these_bytes()
    ensures { LawfulNamesAreTheseBytes }
{}
