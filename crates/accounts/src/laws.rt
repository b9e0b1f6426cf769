//! Laws of the definitions, each the contract of a call that does nothing.
ghost use Rattle.accounts.specs.Accepted.{PasswdIsAccepted, GroupIsAccepted};
ghost use Rattle.accounts.specs.Examples.{ExampleOfGroup, ExampleOfMembers, ExampleOfPasswd};
ghost use Rattle.accounts.specs.Fields.{UserRowsHaveTheirFields, GroupRowsHaveTheirFields};
ghost use Rattle.accounts.specs.Members.{ListsHaveTheirMembers, MembersStandInOrder};
ghost use Rattle.accounts.specs.Refusals.{EachIsTold, EachOfGroupIsTold, FirstLineIsTold};
ghost use Rattle.accounts.specs.Refused.{GroupFirstFaultIsTold, GroupLinesMayStand};
ghost use Rattle.accounts.specs.Refused.{PasswdFirstFaultIsTold, PasswdLinesMayStand};

/// When a file is accepted: exactly where each line passes the checks of one line, names are
/// distinct and numbers are distinct. Its table is then that of the kept lines.
///
/// The call does nothing: its contract is the law. Source: passwd(5), group(5).
pub fn a_table_is_accepted()
    ensures passwd { PasswdIsAccepted }
    ensures group { GroupIsAccepted }
{}

/// Examples of a passwd and of a group, and of a user list, that show which field of a line is
/// which part of its row.
///
/// The call does nothing: its contract is the law. Source: passwd(5), group(5).
pub fn tables_by_example()
    ensures passwd { ExampleOfPasswd }
    ensures group { ExampleOfGroup }
    ensures members { ExampleOfMembers }
{}

/// Each line of a file that has a table breaks no check of a line. Of any other file the first line
/// that breaks one is told, counted from 1, with the first check that it breaks.
///
/// The call does nothing: its contract is the law. Source: passwd(5), group(5).
pub fn first_faults_are_told()
    ensures passwd { PasswdLinesMayStand }
    ensures group { GroupLinesMayStand }
    ensures passwd_fault { PasswdFirstFaultIsTold }
    ensures group_fault { GroupFirstFaultIsTold }
{}

/// Examples of a passwd and of a group that are refused: one for each code that needs no long text,
/// told of a line in which nothing before is wrong and all after it is that can be; and that of two
/// bad lines the first is told.
///
/// The call does nothing: its contract is the law. Source: passwd(5), group(5).
pub fn refused_tables_by_example()
    ensures passwd { EachIsTold }
    ensures group { EachOfGroupIsTold }
    ensures first { FirstLineIsTold }
{}

/// Who is on a user list: each text between two commas, or between a comma and an end of the list,
/// that is not empty, and no other; in the order in which they stand there, and as often.
///
/// The call does nothing: its contract is the law. Source: group(5).
pub fn lists_have_their_members()
    ensures exactly { ListsHaveTheirMembers }
    ensures in_order { MembersStandInOrder }
{}

/// The rows of a table are those of the lines that are not skipped, in their order. A row has the
/// number of its line, and its line is the row's seven fields, or four of a group, with a colon
/// between each and the next: nothing of a text is changed or lost, and no two are exchanged.
///
/// The call does nothing: its contract is the law. Source: passwd(5), group(5).
pub fn rows_have_their_fields()
    ensures passwd { UserRowsHaveTheirFields }
    ensures group { GroupRowsHaveTheirFields }
{}
