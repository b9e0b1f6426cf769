//! What the texts of a host say.

ghost use Rattle.std.specs.Prelude.{◌≡◌, [], length, Ok, Err, IfOk, IfErr, IfSome, All};
ghost use Rattle.idtext.specs.First.{Gives, each};
ghost use Rattle.accounts.specs.Laws.{IsPasswdTable, IsGroupTable};
ghost use Rattle.accounts.specs.Tables.{passwd_table, group_table};
ghost use Rattle.logindefs.specs.Ranges.{IsHostRanges, ranges_of};
ghost use Rattle.hosts_join.specs.Checks.{primary_checked};
ghost use Rattle.hosts_join.specs.Hosts.{IsLawfulHost};
ghost use Rattle.hosts_join.specs.declared.fault.SiteFault.TheVariants as site;
ghost use Rattle.unify_texts.specs.declared.fault.Fault.{Fault};
ghost use Rattle.unify_texts.specs.Told.{told, in_file};
ghost use Rattle.site_tables.specs.Told.{site_told, in_site};
ghost use Rattle.site_tables.specs.Hosts.{host_of, owner_fault, read_told};

use accounts::{GroupTable, PasswdTable, read_group, read_passwd};
use hosts_join::{Host, HostText, Reserved, Runs, SiteFault, Which, check_primary};
use idtext::{ByteString, Name, ReadError};
use logindefs::{HostRanges, read_ranges};
use mtree_inv::Entry;
use std::alloc::{AllocError, Global};
use unify_texts::{Fault, FileName, file_fault};

/// What the files of a host say, with its inventory's text.
#[derive(Drop)]
pub struct Loaded<'a> {
    /// Its name, ranges and tables.
    pub host: Host<'a>,
    /// The text of its inventory.
    pub mtree: Name<'a>,
}

// A name that is pinned to two numbers.
fn pins_disagree<'a>(
    kind: Which,
    name: Name<'a>,
    first: Option<Name<'a>>,
    second: Option<Name<'a>>,
) -> Fault<'a>
    ensures { result ≡ site_told (site.PinDisagrees kind name.entry first.entry second.entry) }
{
    Fault::PinDisagrees {
        kind,
        name,
        first,
        second: second.unwrap_or(Name::new(b"")),
    }
}

// A name that is pinned to a number which no name is to be given.
fn pin_is_reserved<'a>(kind: Which, number: u32, name: Name<'a>, by: Reserved<'a>) -> Fault<'a>
    ensures { result ≡ site_told (site.PinReserved kind number name.entry by.entry) }
{
    Fault::PinReserved {
        kind,
        number,
        name,
        by,
    }
}

// Two names that are to have one number.
fn pins_clash<'a>(kind: Which, number: u32, first: Name<'a>, second: Name<'a>) -> Fault<'a>
    ensures { result ≡ site_told (site.PinClash kind number first.entry second.entry) }
{
    Fault::PinClash {
        kind,
        number,
        first,
        second,
    }
}

/// A fault of the host list, of the primary groups or of the join, as the program tells it.
/// Constant time.
pub fn site_fault(fault: SiteFault<'_>) -> Fault<'_>
    ensures { result ≡ site_told fault.entry }
{
    match fault {
        SiteFault::BadHostName(name) => Fault::BadHostName(name),
        SiteFault::HostTwice(name) => Fault::HostTwice(name),
        SiteFault::HostCount(count) => Fault::HostCount(count),
        SiteFault::NoPrimaryGroup { host, user } => Fault::NoPrimaryGroup { host, user },
        SiteFault::PinDisagrees {
            kind,
            name,
            first,
            second,
        } => pins_disagree(kind, name, first, second),
        SiteFault::PinReserved {
            kind,
            number,
            name,
            by,
        } => pin_is_reserved(kind, number, name, by),
        SiteFault::PinClash {
            kind,
            number,
            first,
            second,
        } => pins_clash(kind, number, first, second),
        SiteFault::PoolTooSmall {
            kind,
            class,
            names,
            numbers,
        } => Fault::PoolTooSmall {
            kind,
            class,
            names,
            numbers,
        },
        SiteFault::Memory => Fault::Memory,
    }
}

// The ranges of a host.
fn ranges_at<'a>(host: &'a [u8], text: &[u8]) -> Result<HostRanges, Fault<'a>>
    ensures exact { Gives (λ x. x) told result
        (in_file host.now FileName.LoginDefs (ranges_of text.now)) }
    ensures lawful { IfOk result IsHostRanges }
{
    match read_ranges(text) {
        Ok(ranges) => Ok(ranges),
        Err(fault) => Err(file_fault(host, FileName::LoginDefs, fault)),
    }
}

// The users of a host.
fn users_at<'a>(alloc: Global, host: &'a [u8], text: &'a [u8]) -> Result<PasswdTable<'a>, Fault<'a>>
    ensures exact { Gives (λ x. x) told result
        (in_file host.now FileName.Passwd (passwd_table text.now)) }
    ensures lawful { IfOk result (λ table. IsPasswdTable table) }
{
    match read_passwd(alloc, text) {
        Ok(table) => Ok(table),
        Err(ReadError::Fault(fault)) => Err(file_fault(host, FileName::Passwd, fault)),
        Err(ReadError::Memory) => Err(Fault::Memory),
    }
}

// The groups of a host.
fn groups_at<'a>(alloc: Global, host: &'a [u8], text: &'a [u8]) -> Result<GroupTable<'a>, Fault<'a>>
    ensures exact { Gives (λ x. x) told result
        (in_file host.now FileName.Group (group_table text.now)) }
    ensures lawful { IfOk result (λ table. IsGroupTable table) }
{
    match read_group(alloc, text) {
        Ok(table) => Ok(table),
        Err(ReadError::Fault(fault)) => Err(file_fault(host, FileName::Group, fault)),
        Err(ReadError::Memory) => Err(Fault::Memory),
    }
}

// Whether each user's group is there.
fn primary_at<'a>(host: &Host<'a>) -> Result<(), Fault<'a>>
    ensures { Gives (λ x. x) told result (in_site (primary_checked host.now)) }
{
    match check_primary(host) {
        Ok(()) => Ok(()),
        Err(fault) => Err(site_fault(fault)),
    }
}

// The tables of a host, which spares no number: login.defs, passwd and group. What is left to ask
// is whether each user's group is there.
#[tactic(auto, unfolding(crate::specs::Hosts::host_of))]
fn tables_at<'a>(alloc: Global, text: &'a HostText) -> Result<Host<'a>, Fault<'a>>
    ensures refused { IfErr result (λ e. IfSome (told e) (λ f. host_of text.now ≡ Err f)) }
    ensures accepted { IfOk result
        (λ host. (u : Unit {0}) → in_site (primary_checked host) ≡ Ok u
        → host_of text.now ≡ Ok (record { host = host; mtree = text.now.mtree })) }
    ensures unchecked { IfOk result
        (λ host. (f : Fault) → in_site (primary_checked host) ≡ Err f → host_of text.now ≡ Err f) }
    ensures lawful { IfOk result (λ host. IsLawfulHost host) }
{
    let name = text.name.bytes();
    let ranges = ranges_at(name, text.logindefs.bytes())?;
    let users = users_at(alloc, name, text.passwd.bytes())?;
    let groups = groups_at(alloc, name, text.group.bytes())?;
    Ok(Host {
        name: Name::new(name),
        ranges,
        users,
        groups,
        spared_users: Runs::none(alloc),
        spared_groups: Runs::none(alloc),
    })
}

/// Reads a host's files but its inventory: login.defs, passwd, group, and then whether each user's
/// group is there. It refuses with the first fault in this order. One pass over each text; the
/// tables borrow them.
pub fn load_host<'a>(alloc: Global, text: &'a HostText) -> Result<Loaded<'a>, Fault<'a>>
    ensures exact { Gives (λ x. x) told result (host_of text.now) }
    ensures lawful { IfOk result (λ loaded. IsLawfulHost loaded.host) }
{
    let host = tables_at(alloc, text)?;
    primary_at(&host)?;
    Ok(Loaded {
        host,
        mtree: Name::new(text.mtree.bytes()),
    })
}

/// Reads the files of all hosts but their inventories, host by host, up to the first fault. One
/// pass over each text; the tables borrow them.
pub fn load_hosts<'a>(alloc: Global, texts: &'a [HostText]) -> Result<Vec<Loaded<'a>>, Fault<'a>>
    ensures exact { Gives (λ hosts. hosts.items) told result (each host_of texts.now) }
    ensures len { IfOk result (λ hosts. length hosts.items ≡ length texts.now) }
    ensures lawful { IfOk result (λ hosts. All (λ loaded. IsLawfulHost loaded.host) hosts.items) }
{
    let mut hosts = Vec::new(alloc);
    for text in texts {
        hosts.push(load_host(alloc, text)?)?;
    }
    Ok(hosts)
}

/// A fault of the reader of a host's inventory, told with its host. Constant time.
pub fn read_fault<'a>(host: &Host<'a>, fault: ReadError) -> Fault<'a>
    ensures { result ≡ read_told host.now fault }
{
    match fault {
        ReadError::Fault(fault) => file_fault(host.name.bytes(), FileName::Mtree, fault),
        ReadError::Memory => Fault::Memory,
    }
}

/// What is wrong with a file's owners: its uid or its gid is the number of no account of its host,
/// and the host does not spare it, the uid first. Two look-ups by hash, and a bisection for a
/// number that has no account; `AllocError` where memory for the path is refused.
pub fn ownership_fault<'a>(
    alloc: Global,
    host: &Host<'a>,
    file: &Entry,
) -> Result<Option<Fault<'a>>, AllocError>
    ensures { IfOk result (λ fault. fault ≡ owner_fault host.now [] file.now) }
{
    if !host.allows_uid(file.uid) {
        return Ok(Some(Fault::UnownedUid {
            host: Name::new(host.name.bytes()),
            uid: file.uid,
            path: ByteString::copy_of(alloc, file.path.bytes())?,
        }));
    }
    if !host.allows_gid(file.gid) {
        return Ok(Some(Fault::UnownedGid {
            host: Name::new(host.name.bytes()),
            gid: file.gid,
            path: ByteString::copy_of(alloc, file.path.bytes())?,
        }));
    }
    Ok(None)
}
