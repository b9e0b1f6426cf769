//! What holds of keep texts.
ghost use Rattle.keep_text.specs.KeepForms.{AcceptedLinesMayStand, FirstBadLineIsTold};
ghost use Rattle.keep_text.specs.KeepLaws.{NamesAreListed, RangesAreListed};
ghost use Rattle.keep_text.specs.KeepLaws.{ReadKeepsAreLawful, UnownedIsSaid};

/// What a keep text lists is lawful, for users and for groups: its names are lawful and differ, and
/// its ranges are of ids, and none is empty.
pub fn keeps_are_lawful()
    ensures { ReadKeepsAreLawful }
{}

/// A number lies in a range that a keep text lists for users exactly where `users`, a space, an id,
/// a space and an id are a line of the text, and the number is from the first id to the second; and
/// the same of groups and `groups`.
pub fn ranges_are_listed()
    ensures { RangesAreListed }
{}

/// A name is among those that a keep text lists for users exactly where `user`, a space and the
/// name are a line of the text; and the same of groups and `group`.
pub fn names_are_listed()
    ensures { NamesAreListed }
{}

/// Numbers of users without an account stay exactly where `unowned users` is a line of the text;
/// and the same of groups and `unowned groups`.
pub fn unowned_is_said()
    ensures { UnownedIsSaid }
{}

/// Each line of a keep text that is accepted says nothing; or is `users` or `groups`, a space, an
/// id, a space and an id that is not below the first; or is `user` or `group`, a space and a lawful
/// name, `unowned users` or `unowned groups`, and no earlier line is the same. Of any other text
/// the first line that is no such line is told, counted from 1.
pub fn bad_lines_are_told()
    ensures accepted { AcceptedLinesMayStand }
    ensures refused { FirstBadLineIsTold }
{}
