//! What is read of a site before its inventories.

ghost use Rattle.std.specs.Prelude.{◌≡◌, ◌≤◌, List, length, map, IfOk};
ghost use Rattle.std.specs.List.{All};
ghost use Rattle.idtext.specs.First.{Gives, Yields, each};
ghost use Rattle.hosts_join.specs.Checks.{hosts_checked};
ghost use Rattle.hosts_join.specs.declared.host.Host.{Host};
ghost use Rattle.hosts_join.specs.Hosts.{IsLawfulHost};
ghost use Rattle.hosts_join.specs.PinsText.{pins_of};
ghost use Rattle.hosts_join.specs.Site.{joined_site};
ghost use Rattle.unify_texts.specs.Told.{told};
ghost use Rattle.site_tables.specs.Told.{in_site, in_pins};
ghost use Rattle.site_tables.specs.Hosts.{host_of};
ghost use Rattle.site_tables.specs.Others.{others_loaded, pinned_site, reserving};
ghost use Rattle.site_tables.specs.OthersHeld.{others_held, others_in};
ghost use Rattle.site_tables.specs.Begun.{site_begun, HoldsBegun};

use crate::host::{load_hosts, site_fault};
use crate::others::{OtherHosts, ReservedNumbers, other_hosts};
use crate::rules::{KeepRules, SiteRules};
use hosts_join::{Host, HostText, Pins, PinsFault, Site, check_hosts, join};
use std::alloc::Global;
use unify_texts::Fault;

/// The hosts of a site with their tables, and the accounts over all hosts. It borrows the texts.
#[derive(Drop)]
pub struct JoinedHosts<'a> {
    /// What is joined of each.
    pub hosts: Vec<Host<'a>>,
    /// Each name with its accounts.
    pub site: Site<'a>,
}

// The pins.
fn load_pins<'a>(alloc: Global, text: &'a [u8]) -> Result<Pins<'a>, Fault<'a>>
    ensures { Gives (λ pins. pins) told result (in_pins (pins_of text.now)) }
{
    match Pins::read(alloc, text) {
        Ok(pins) => Ok(pins),
        Err(PinsFault::BadPins(line)) => Err(Fault::BadPins(line)),
        Err(PinsFault::Memory) => Err(Fault::Memory),
    }
}

// Pins, with the numbers that no name is to be given.
fn reserve_for<'a>(pins: Pins<'a>, reserved: ReservedNumbers<'a>) -> Pins<'a>
    ensures { (hosts : List Host)
        → result ≡ reserving (others_held hosts reserved.entry) pins.entry }
{
    let ReservedNumbers { users, groups } = reserved;
    pins.with_reserved(users, groups)
}

// The accounts over all hosts.
fn join_hosts<'a>(alloc: Global, hosts: &[Host<'a>], pins: &Pins<'a>) -> Result<Site<'a>, Fault<'a>>
    requires few { length hosts.now ≤ 64 }
    requires lawful { All IsLawfulHost hosts.now }
    ensures { Gives (λ site. site) told result (in_site (joined_site hosts.now pins.now)) }
{
    match join(alloc, hosts, pins) {
        Ok(site) => Ok(site),
        Err(fault) => Err(site_fault(fault)),
    }
}

// The accounts over all hosts, by the pins of a text and what is reserved.
fn join_pinned<'a>(
    alloc: Global,
    hosts: &[Host<'a>],
    reserved: ReservedNumbers<'a>,
    pins: &'a [u8],
) -> Result<Site<'a>, Fault<'a>>
    requires few { length hosts.now ≤ 64 }
    requires lawful { All IsLawfulHost hosts.now }
    ensures { Gives (λ site. site) told result
        (pinned_site (others_held hosts.now reserved.entry) pins.now) }
{
    let pins = reserve_for(load_pins(alloc, pins)?, reserved);
    join_hosts(alloc, hosts, &pins)
}

// The hosts with the accounts over all of them.
fn join_others<'a>(
    alloc: Global,
    others: OtherHosts<'a>,
    pins: &'a [u8],
) -> Result<JoinedHosts<'a>, Fault<'a>>
    requires few { length others.hosts.items ≤ 64 }
    requires lawful { All IsLawfulHost others.hosts.items }
    ensures site { Gives (λ held. held.site) told result
        (pinned_site (others_in others.entry) pins.now) }
    ensures hosts { IfOk result (λ held. held.hosts.items ≡ others.entry.hosts.items) }
{
    let OtherHosts { hosts, reserved } = others;
    let site = join_pinned(alloc, &hosts, reserved, pins)?;
    Ok(JoinedHosts { hosts, site })
}

/// Checks the host list: 1 to 64 hosts, whose names are lawful and differ. Linear in the names.
pub fn check_list(hosts: &[HostText]) -> Result<(), Fault<'_>>
    ensures exact { Gives (λ x. x) told result (in_site (hosts_checked hosts.now)) }
    ensures few { IfOk result (λ _. length hosts.now ≤ 64) }
{
    match check_hosts(hosts) {
        Ok(()) => Ok(()),
        Err(fault) => Err(site_fault(fault)),
    }
}

/// Reads the files of all hosts but their inventories, as `load_hosts` does, and keeps the tables
/// alone.
pub fn load_tables<'a>(alloc: Global, texts: &'a [HostText]) -> Result<Vec<Host<'a>>, Fault<'a>>
    ensures read { Yields (λ loaded hosts. hosts.items ≡ map (λ l. l.host) loaded) told result
        (each host_of texts.now) }
    ensures len { IfOk result (λ hosts. length hosts.items ≡ length texts.now) }
    ensures lawful { IfOk result (λ hosts. All IsLawfulHost hosts.items) }
{
    let all = load_hosts(alloc, texts)?;
    Ok(all.into_iter().map(|loaded| loaded.host).collect(alloc)?)
}

/// Reads the files of all hosts but their inventories, as `load_hosts` does, and the keep text. It
/// answers what is joined of the hosts, with the numbers that no name is to be given.
pub fn load_others<'a>(
    alloc: Global,
    texts: &'a [HostText],
    keep: &KeepRules<'a>,
) -> Result<OtherHosts<'a>, Fault<'a>>
    ensures read { Gives others_in told result (others_loaded texts.now keep.now) }
    ensures len { IfOk result (λ others. length others.hosts.items ≡ length texts.now) }
    ensures lawful { IfOk result (λ others. All IsLawfulHost others.hosts.items) }
{
    let hosts = load_tables(alloc, texts)?;
    other_hosts(alloc, keep, hosts)
}

/// Reads of a site what comes before the inventories: the files of each host but its inventory, the
/// keep text, the pins text and the join. It answers what is joined of the hosts, and the accounts
/// over it.
///
/// It refuses with the first fault in this order: the host list; host by host login.defs, passwd,
/// group and the primary groups; the keep text, by line; the pins text, by line; the join, users
/// before groups. `Fault::Memory` is a growth that was refused. One pass over each text. Where the
/// keep text is not empty, what is joined of the hosts is copied.
pub fn join_tables<'a>(
    alloc: Global,
    host_texts: &'a [HostText],
    rules: &SiteRules<'a>,
) -> Result<JoinedHosts<'a>, Fault<'a>>
    ensures begun { Yields HoldsBegun told result (site_begun host_texts.now rules.now) }
    ensures hosts { IfOk result (λ begun. length begun.hosts.items ≡ length host_texts.now) }
{
    check_list(host_texts)?;
    let others = load_others(alloc, host_texts, &rules.keep)?;
    join_others(alloc, others, rules.pins.bytes())
}
