//! Laws of the join, each the contract of a call that does nothing.
ghost use Rattle.hosts_join.specs.ClaimsExample.{ExampleOfClaims};
ghost use Rattle.hosts_join.specs.FaultOrder.{UsersAreToldFirst};
ghost use Rattle.hosts_join.specs.HostFaults.{AcceptedHostsAreListed, AcceptedUsersHaveGroups};
ghost use Rattle.hosts_join.specs.HostFaults.{HostFaultsAreThere, PrimaryFaultsAreThere};
ghost use Rattle.hosts_join.specs.HostNames.{HostNamesAreOneWord, HostNamesAreTheseBytes};
ghost use Rattle.hosts_join.specs.Laws.{JoinedSitesAreLawful, JoinedSitesKnowTheirHosts};
ghost use Rattle.hosts_join.specs.Laws.{JoinedSitesLeaveReserved, JoinedSitesLeaveSpared};
ghost use Rattle.hosts_join.specs.Laws.{NothingReservedChangesNothing};
ghost use Rattle.hosts_join.specs.NumberFaults.{ClashesAreThere, SmallPoolsAreThere};
ghost use Rattle.hosts_join.specs.PinFaults.{DisagreeingPinsAreThere, ReservedPinsAreThere};
ghost use Rattle.hosts_join.specs.PinLines.{AcceptedPinsMayStand, FirstBadPinIsTold, PinsAreListed};
ghost use Rattle.hosts_join.specs.SiteNames.{KindsNameTheirHosts, NamesStandAsTheyAppear};
ghost use Rattle.hosts_join.specs.SiteNames.{SpotsStandByHosts};
ghost use Rattle.hosts_join.specs.Standings.{DisagreeingPinsAreRefused, LinesCountTheHosts};
ghost use Rattle.hosts_join.specs.Standings.{NumbersStandWhereTheyMay};
ghost use Rattle.hosts_join.specs.Standings.{NumbersThatMayStandAreOffered};
ghost use Rattle.hosts_join.specs.Laws.{ReadPinsArePins, ReadPinsReserveNothing};

/// A site knows the accounts of each of its hosts: who has a number there is the account of the
/// name that the host's own passwd, or group, gives that number, and where it gives it to no name
/// no account has it.
pub fn a_site_knows_its_hosts()
    ensures { JoinedSitesKnowTheirHosts }
{}

/// The accounts of a site that was joined from at most 64 lawful hosts, and from pins as a pins
/// text gives them, are lawful.
pub fn a_site_has_lawful_accounts()
    ensures { JoinedSitesAreLawful }
{}

/// In the pins that a text gives, names differ and numbers differ, in each kind, and an account may
/// have each number.
pub fn pins_are_lawful()
    ensures { ReadPinsArePins }
{}

/// No name of a joined site may be given a reserved number: none is pinned to one, no pool has one,
/// and the pins text keeps none for a name that no host has.
pub fn a_site_leaves_reserved_numbers()
    ensures { JoinedSitesLeaveReserved }
{}

/// Where each host spares reserved numbers alone, no name of a joined site may be given a number
/// that some host spares.
pub fn a_site_leaves_spared_numbers()
    ensures { JoinedSitesLeaveSpared }
{}

/// Where nothing is reserved, pools and refusals are as if nothing could be.
pub fn nothing_reserved_changes_nothing()
    ensures { NothingReservedChangesNothing }
{}

/// The pins that a text gives reserve nothing.
pub fn read_pins_reserve_nothing()
    ensures { ReadPinsReserveNothing }
{}

/// The pins that a text gives are exactly those of its lines: of users those of each line of
/// `user`, a space, a lawful name, a space and an id; of groups those of each line of `group` and
/// the like.
pub fn pins_are_listed()
    ensures { PinsAreListed }
{}

/// Each line of a pins text that is accepted says nothing, or gives a name and a number of which no
/// earlier line of its kind gives either; and there are at most 1,048,576 lines. Of any other text
/// the first line that is no such line is told, counted from 1.
pub fn bad_pins_are_told()
    ensures accepted { AcceptedPinsMayStand }
    ensures refused { FirstBadPinIsTold }
{}

/// A host's name is 1 to 64 ASCII letters, digits, full stops, hyphens and underscores, begun by
/// neither a full stop nor a hyphen, and any such text is one; so it is one word of a line, and one
/// part of a path.
pub fn host_names_are_one_word()
    ensures exactly { HostNamesAreTheseBytes }
    ensures word { HostNamesAreOneWord }
{}

/// Each number that a name of a joined site may have is its pin, or the number that it has outside
/// the ranges of a host, and is then no other name's; a free name has numbers that are regular on
/// every host, where it is regular on some, or else system numbers on every host.
pub fn numbers_stand_where_they_may()
    ensures { NumbersStandWhereTheyMay }
{}

/// A name may have every number at which `numbers_stand_where_they_may` lets it stand, if an
/// account may have it and it is not reserved.
pub fn numbers_that_may_stand_are_offered()
    ensures { NumbersThatMayStandAreOffered }
{}

/// Where hosts were joined, all that have a name outside their ranges have it at one number, and
/// the pins text gives it no other.
pub fn disagreeing_pins_are_refused()
    ensures { DisagreeingPinsAreRefused }
{}

/// Of the rows of a name so many have a number as there are hosts whose passwd, or group, gives the
/// name that number.
pub fn lines_count_the_hosts()
    ensures { LinesCountTheHosts }
{}

/// Where two names with one number are told, they are the first two that are given that number, and
/// no lesser number is given to two. Where a pool is told as too small, the site has as many names
/// of its class as are told, and the pool as many numbers, which are fewer; the pool of system
/// names is told only where that of regular names is large enough, and a pool only where no number
/// is given to two names. Neither fault is told where a name is pinned to two numbers, or is given
/// a reserved one.
pub fn number_faults_are_there()
    ensures clashes { ClashesAreThere }
    ensures pools { SmallPoolsAreThere }
{}

/// Where a name is told as pinned to two numbers, it is the first name of the site that is, the
/// first place that is told is the first that pins it, and the second the first that pins it to
/// another number. Where a pin is told as reserved, no name is pinned to two numbers, its name is
/// the first that is given a reserved number, and the range that is told is the first that has that
/// number.
pub fn pin_faults_are_there()
    ensures disagree { DisagreeingPinsAreThere }
    ensures reserved { ReservedPinsAreThere }
{}

/// Where hosts are not joined, the fault that is told is that of their users, or, where the users
/// are joined, that of their groups.
pub fn users_are_told_first()
    ensures { UsersAreToldFirst }
{}

/// An example of the names that are given a number before all others, in the order in which faults
/// are told of them: the pinned names of the site, as they appear on the hosts, and then those that
/// no host has, as their lines stand in the pins text.
pub fn claims_by_example()
    ensures { ExampleOfClaims }
{}

/// A list of hosts is accepted only where there are 1 to 64 of them, with lawful names that differ;
/// else the number of hosts is told, or the first name that is not lawful or that an earlier host
/// has. The users of a host are accepted only where each has a primary group; else the first that
/// has none is told.
pub fn host_faults_are_there()
    ensures hosts { AcceptedHostsAreListed }
    ensures host { HostFaultsAreThere }
    ensures users { AcceptedUsersHaveGroups }
    ensures user { PrimaryFaultsAreThere }
{}

/// For users and for groups the hosts of a site have the names with which they were given, in their
/// order: a place that pins is told by the name of its host.
pub fn kinds_name_their_hosts()
    ensures { KindsNameTheirHosts }
{}

/// The names of a site stand in the order in which they appear: one host more leaves all names
/// where they stood, and adds its own that are not among them at the end, in the order of its rows.
pub fn names_stand_as_they_appear()
    ensures { NamesStandAsTheyAppear }
{}

/// Where hosts are lawful, those that have a name of the site stand in the order of all hosts, each
/// of them once: which of them is told as the first that pins the name goes by that order.
pub fn spots_stand_by_hosts()
    ensures { SpotsStandByHosts }
{}
