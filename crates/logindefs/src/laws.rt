//! Laws over ranges of numbers, and over the texts that give them. Each is the contract of a
//! function that does nothing.
#![tactic(auto)]

ghost use Rattle.logindefs.specs.Accepted.{FirstWrongLineIsTold, RangesAreAccepted};
ghost use Rattle.logindefs.specs.Examples.{AllEightAreRead, DefaultsHold, LastValuesCount};
ghost use Rattle.logindefs.specs.Examples.{FirstOfTwoIsTold, GreatestIsRead, KindsMayShare};
ghost use Rattle.logindefs.specs.Examples.{LetterIsRefused, OthersArePassedOver};
ghost use Rattle.logindefs.specs.Examples.{SharedGidIsRefused, SharedUidIsRefused};
ghost use Rattle.logindefs.specs.Examples.{SystemEndsBelowRegular, TooGreatIsRefused};
ghost use Rattle.logindefs.specs.LastValues.{LastValueCounts, NoneIsGiven};
ghost use Rattle.logindefs.specs.Laws.{LengthCounts, RangesAreBetween, SharedIsInBoth};
ghost use Rattle.logindefs.specs.Quotes.{QuotesAreDropped};

/// A range stands for the set of the numbers in it: its length is how many they are, and two ranges
/// share a number exactly where one lies in both.
pub fn ranges_are_sets_of_numbers()
    ensures len { LengthCounts }
    ensures shared { SharedIsInBoth }
{}

/// A number is in a range exactly where it is at least the minimum and at most the maximum, by the
/// values that the parameters were given, each with its default written out. So no number is in a
/// range whose minimum is above its maximum.
pub fn ranges_are_between()
    ensures { RangesAreBetween }
{}

/// Of a value all double quotes at both its ends are dropped, however many, and nothing else.
pub fn quotes_are_dropped()
    ensures { QuotesAreDropped }
{}

/// Examples of texts and the ranges that they give: the defaults, by an empty text; all eight
/// parameters, in decimal, in octal and in hexadecimal; the last value of each, where it is given
/// twice; and regular minima alone, below which the system ranges end.
pub fn ranges_by_example()
    ensures defaults { DefaultsHold }
    ensures all_eight { AllEightAreRead }
    ensures last { LastValuesCount }
    ensures below { SystemEndsBelowRegular }
{}

/// A text gives ranges exactly where each of its lines may stand, and the ranges that the last
/// value of each parameter gives, or its default, share no number: regular and system ones, of
/// users and of groups. A line may stand that has at most 65,535 bytes and gives to none of the
/// eight parameters a value that is no number.
///
/// Of any other text the first line that may not stand is told, counted from 1: that it is too
/// long, or else that its value is no number. Where all may stand, line 0 is told, and that ranges
/// overlap.
///
/// The value of a parameter is that of the last line whose first word is its name and whose second
/// word is a number, 0 too; and it has none where no line gives it one.
pub fn ranges_are_accepted()
    ensures accepted { RangesAreAccepted }
    ensures refused { FirstWrongLineIsTold }
    ensures last { LastValueCounts }
    ensures none { NoneIsGiven }
{}

/// Examples of texts that are refused, with what is told: a letter in a number, the first of two
/// such values, a number that is too great, and a number in two ranges of users or of groups; and
/// of texts beside them that are not.
pub fn refused_ranges_by_example()
    ensures letter { LetterIsRefused }
    ensures first { FirstOfTwoIsTold }
    ensures too_great { TooGreatIsRefused }
    ensures greatest { GreatestIsRead }
    ensures passed_over { OthersArePassedOver }
    ensures uid { SharedUidIsRefused }
    ensures gid { SharedGidIsRefused }
    ensures kinds { KindsMayShare }
{}
