//! The names of one kind over all hosts.
ghost use Rattle.std.specs.Prelude.{◌≡◌, ℕ, List, ◌<◌, ◌≤◌, ◌&&◌, ◌||◌, ◌==◌, not, map, length};
ghost use Rattle.std.specs.Prelude.{◌^◌, OnOk, IfOk, IfErr, IfSome, Some, None, count_by};
ghost use Rattle.std.specs.List.{All, list_all};
ghost use Rattle.idtext.specs.First.{Gives};
ghost use Rattle.idtext.specs.Names.{is_lawful_name};
ghost use Rattle.hosts_join.specs.Pool.{run_size};
ghost use Rattle.hosts_join.specs.RangeLists.{lies_in_some};
ghost use Rattle.hosts_join.specs.Index.{accounts_in, ArePaired};
ghost use Rattle.hosts_join.specs.Rules as rules;
ghost use Rattle.hosts_join.specs.Rules.{claim_fault, is_taken, is_reserved, is_id, joined};
ghost use Rattle.hosts_join.specs.Settled.{ArePools, IsSettled, joined_from, lacking, small_among};
ghost use Rattle.hosts_join.specs.Accounts.{AreNumberedApart, AreNamedApart, IsSpotAmong, grouped};
ghost use Rattle.hosts_join.specs.Accounts.{spot_of, spots_of};
ghost use Rattle.hosts_join.specs.PinPairs.{ArePins};
ghost use Rattle.hosts_join.specs.Told.{told};
ghost use Rattle.hosts_join.specs.declared.fault.SiteFault.TheVariants as refusal;
ghost use Rattle.hosts_join.specs.Views.{rows_of, pairs_of, entry_of};
ghost use Rattle.std.specs.Prelude.{true};
ghost use Rattle.logindefs.specs.Ranges.{in_range};

use crate::clash::{Clash, find_clash};
use crate::index::Index;
use crate::members::{claims, classes, common_regular, common_system, names_in};
use crate::order::in_byte_order;
use crate::reserving::{check_reserved, copy_reserved, given_away};
use crate::{
    Class, HostEntry, Pair, PairTable, Pool, PoolClass, Reserved, Row, SiteFault, Spot, Which,
};
use idtext::Name;
use std::alloc::{AllocError, Global};
use std::marker::Model;

/// The names of one kind, by index in order of first appearance: hosts in order, and on a host its
/// rows in order, with a copy of what is reserved. A contract sees the accounts that they were
/// joined from: for its sake alone the hosts are kept, and a copy of the pins of the kind. No call
/// takes memory.
pub struct Names<'a> {
    hosts: Vec<HostEntry<'a>>,
    given: Given<'a>,
    index: Index<'a>,
    all_lines: u64,
    order: Vec<u32>,
    classes: Vec<Class>,
    regular: Pool,
    system: Pool,
    none: Pool,
}

// Written out, so that the proof of a function that lets names go has one call there, and not the
// parts of all tables.
impl Drop for Names<'_> {
    fn drop(self) {
        let Names {
            hosts,
            given,
            index,
            all_lines: _,
            order,
            classes,
            regular,
            system,
            none,
        } = self;
        drop(hosts);
        drop(given);
        drop(index);
        drop(order);
        drop(classes);
        drop(regular);
        drop(system);
        drop(none);
    }
}

impl<'a> Model for Names<'a> {
    ghost use Rattle.hosts_join.specs.Accounts.{Accounts};

    ghost Value = { Accounts };

    ghost use Rattle.hosts_join.specs.NamesInside.{accounts_of, IsNames};

    ghost view = { accounts_of };

    ghost invariant = { IsNames };
}

/// What was given beside the hosts: the pins of the kind, and what is reserved.
#[derive(Drop)]
struct Given<'a> {
    pins: Vec<Pair<'a>>,
    reserved: Vec<Reserved<'a>>,
}

/// The pools of regular and of system names.
#[derive(Drop)]
struct PoolPair {
    regular: Pool,
    system: Pool,
}

/// The pools of regular and of system names, where the claims and what is reserved are given away.
fn pools(
    alloc: Global,
    hosts: &[HostEntry<'_>],
    claims: &[Pair<'_>],
    reserved: &[Reserved<'_>],
) -> Result<PoolPair, AllocError>
    ensures regular { IfOk result (λ p. (v : ℕ) → lies_in_some p.regular v
        ≡ ((is_id v && list_all (λ h. in_range h.regular v) (map entry_of hosts.now))
        && not (is_taken (pairs_of claims.now) v || is_reserved reserved.now v))) }
    ensures system { IfOk result (λ p. (v : ℕ) → lies_in_some p.system v
        ≡ ((is_id v && list_all (λ h. in_range h.system v) (map entry_of hosts.now))
        && not (is_taken (pairs_of claims.now) v || is_reserved reserved.now v))) }
{
    let away = given_away(alloc, claims, reserved)?;
    let regular = Pool::of(alloc, common_regular(hosts), away.as_slice())?;
    let system = Pool::of(alloc, common_system(hosts), away.as_slice())?;
    Ok(PoolPair { regular, system })
}

/// A copy of the pins.
fn copy_pins<'a>(alloc: Global, pins: &PairTable<'a>) -> Result<Vec<Pair<'a>>, AllocError>
    ensures { IfOk result (λ copy. pairs_of copy.items ≡ pins.now) }
{
    let mut copy = Vec::new(alloc);
    for place in 0..pins.len() {
        copy.push(pins.at(place))?;
    }
    Ok(copy)
}

/// A copy of the pins and of what is reserved.
fn copy_given<'a>(
    alloc: Global,
    pins: &PairTable<'a>,
    reserved: &[Reserved<'a>],
) -> Result<Given<'a>, AllocError>
    ensures pins { IfOk result (λ given. pairs_of given.pins.items ≡ pins.now) }
    ensures reserved { IfOk result (λ given. given.reserved.items ≡ reserved.now) }
{
    let pins = copy_pins(alloc, pins)?;
    let reserved = copy_reserved(alloc, reserved)?;
    Ok(Given { pins, reserved })
}

/// The refusal of a number that two names are pinned to.
fn clash_fault<'a>(kind: Which, clash: Clash<'a>) -> SiteFault<'a>
    ensures { result
        ≡ refusal.PinClash kind clash.entry.number clash.entry.first.now clash.entry.second.now }
{
    SiteFault::PinClash {
        kind,
        number: clash.number,
        first: Name::new(clash.first),
        second: Name::new(clash.second),
    }
}

/// Sees that no reserved number is given to a name, and no number to two names.
fn check_claims<'a>(
    alloc: Global,
    kind: Which,
    claims: &[Pair<'a>],
    reserved: &[Reserved<'a>],
) -> Result<(), SiteFault<'a>>
    ensures good { OnOk result (claim_fault kind reserved.now (pairs_of claims.now) ≡ None) }
    ensures fault { IfErr result (λ e. IfSome (told e)
        (λ f. claim_fault kind reserved.now (pairs_of claims.now) ≡ Some f)) }
{
    check_reserved(alloc, kind, claims, reserved)?;
    match find_clash(alloc, claims)? {
        Some(clash) => Err(clash_fault(kind, clash)),
        None => Ok(()),
    }
}

/// The pools of names that have these classes, or what is wrong with the numbers of some of them.
fn pools_beside<'a>(
    alloc: Global,
    kind: Which,
    hosts: &[HostEntry<'a>],
    index: &Index<'a>,
    classes: &[Class],
    pins: &PairTable<'a>,
    reserved: &[Reserved<'a>],
) -> Result<PoolPair, SiteFault<'a>>
    requires paired { ArePaired index.now }
    requires classes { classes.now ≡ map (rules.class_of pins.now) (accounts_in index.now) }
    ensures pools { IfOk result (ArePools (joined_from hosts.now index.now pins.now reserved.now)) }
    ensures good { OnOk result (claim_fault kind reserved.now
        (rules.claims (joined_from hosts.now index.now pins.now reserved.now)) ≡ None) }
    ensures fault { IfErr result (λ e. IfSome (told e) (λ f. claim_fault kind reserved.now
        (rules.claims (joined_from hosts.now index.now pins.now reserved.now)) ≡ Some f)) }
{
    let claims = claims(alloc, index, classes, pins)?;
    check_claims(alloc, kind, claims.as_slice(), reserved)?;
    Ok(pools(alloc, hosts, claims.as_slice(), reserved)?)
}

/// What is wrong with a pool of so many numbers, whose class has so many names.
fn pool_fault<'a>(kind: Which, class: PoolClass, names: u64, numbers: u64) -> Option<SiteFault<'a>>
    ensures { result ≡ lacking kind class names numbers }
{
    if names <= numbers {
        return None;
    }
    Some(SiteFault::PoolTooSmall {
        kind,
        class,
        names,
        numbers,
    })
}

/// Which pool has fewer numbers than its class has names, regular before system.
fn small_pool<'a>(kind: Which, classes: &[Class], pools: &PoolPair) -> Option<SiteFault<'a>>
    ensures { result ≡ small_among kind classes.now pools.now }
{
    let names = names_in(classes, Class::Regular);
    let numbers = pools.regular.len();
    let regular = pool_fault(kind, PoolClass::Regular, names, numbers);
    if regular.is_some() {
        return regular;
    }
    let names = names_in(classes, Class::System);
    pool_fault(kind, PoolClass::System, names, pools.system.len())
}

/// What is settled of names before they are joined: their classes, the pools of those that are
/// free, and the places of all in byte order.
#[derive(Drop)]
struct Settled {
    classes: Vec<Class>,
    pools: PoolPair,
    order: Vec<u32>,
}

/// The classes, pools and order of the names, or the first reason why they cannot be joined.
fn settle<'a>(
    alloc: Global,
    kind: Which,
    hosts: &[HostEntry<'a>],
    index: &Index<'a>,
    pins: &PairTable<'a>,
    reserved: &[Reserved<'a>],
) -> Result<Settled, SiteFault<'a>>
    requires paired { ArePaired index.now }
    requires few { length (accounts_in index.now) < 2 ^ 32 }
    ensures exact { Gives (λ _. joined_from hosts.now index.now pins.now reserved.now) told result
        (joined kind (joined_from hosts.now index.now pins.now reserved.now)) }
    ensures settled { IfOk result
        (IsSettled (joined_from hosts.now index.now pins.now reserved.now)) }
{
    let classes = classes(alloc, kind, hosts, index, pins)?;
    let pools = pools_beside(
        alloc,
        kind,
        hosts,
        index,
        classes.as_slice(),
        pins,
        reserved,
    )?;
    if let Some(fault) = small_pool(kind, classes.as_slice(), &pools) {
        return Err(fault);
    }
    let order = in_byte_order(alloc, index)?;
    Ok(Settled {
        classes,
        pools,
        order,
    })
}

/// The names of the rows, or the first reason why they cannot be joined.
pub fn join_rows<'a>(
    alloc: Global,
    kind: Which,
    hosts: Vec<HostEntry<'a>>,
    rows: &[Row<'a>],
    pins: &PairTable<'a>,
    reserved: &[Reserved<'a>],
) -> Result<Names<'a>, SiteFault<'a>>
    requires apart { AreNumberedApart (rows_of rows.now) }
    requires named { AreNamedApart (rows_of rows.now) }
    requires lawful { All (λ r. is_lawful_name r.name ≡ true) (rows_of rows.now) }
    requires few { length rows.now ≤ 4194304 }
    requires among { All (λ r. IsSpotAmong (length hosts.items) (spot_of r)) (rows_of rows.now) }
    requires spots { (n : List ℕ) → length (spots_of (rows_of rows.now) n) ≤ 64 }
    requires pins { ArePins pins.now }
    requires ranges { (v : ℕ)
        → list_all (λ h. in_range h.regular v) (map entry_of hosts.items) ≡ true
        → list_all (λ h. in_range h.system v) (map entry_of hosts.items) ≡ true
        → length rows.now ≡ 0 }
    ensures { Gives (λ names. names) told result (joined kind (record {
      hosts = map entry_of hosts.entry.items;
      names = grouped (rows_of rows.now);
      pins = pins.now;
      reserved = reserved.now;
    })) }
{
    let index = Index::of(alloc, hosts.len(), rows)?;
    let given = copy_given(alloc, pins, reserved)?;
    let settled = settle(alloc, kind, hosts.as_slice(), &index, pins, reserved)?;
    let Settled {
        classes,
        pools,
        order,
    } = settled;
    let PoolPair { regular, system } = pools;
    Ok(Names {
        hosts,
        given,
        index,
        all_lines: rows.len() as u64,
        order,
        classes,
        regular,
        system,
        none: Pool::new(alloc),
    })
}

impl<'a> Names<'a> {
    ghost use Rattle.hosts_join.specs.Accounts.{place_of, owner, number_on, lines, all_lines};
    ghost use Rattle.hosts_join.specs.Rules.{account};
    ghost use Rattle.hosts_join.specs.Lawful.{AreLawfulAccounts};
    ghost use Rattle.hosts_join.specs.Order.{AreInByteOrder};

    /// How many names there are, and what holds of them all. No cost.
    pub fn len(&self) -> u32
        ensures len { result ≡ length self.now.names }
        ensures lawful { AreLawfulAccounts self.now }
    {
        self.index.len() as u32
    }

    /// The name at an index, a slice of the file that it first stands in. No cost.
    pub fn name(&self, index: u32) -> &'a [u8]
        requires { index < length self.now.names }
        ensures { result.now ≡ (account self.now index).name }
    {
        self.index.name(index as usize)
    }

    /// The hosts that have the name at an index, in order, at most 64, with its number on each. No
    /// cost.
    pub fn spots(&self, index: u32) -> &[Spot]
        requires { index < length self.now.names }
        ensures { result.now ≡ (account self.now index).spots }
    {
        self.index.spots(index as usize)
    }

    /// The class of the name at an index. A name is pinned by the pins text, or by a host on which
    /// its number is in neither range; else it is regular if it is so on some host, else system. No
    /// cost.
    pub fn class(&self, index: u32) -> Class
        requires { index < length self.now.names }
        ensures { result ≡ rules.class_of self.now.pins (account self.now index) }
    {
        self.classes[index as usize]
    }

    /// The index of the name that has a number on a host, which most likely is that of the host's
    /// row at this place, counted from 0. No cost where it is, else one look-up by hash.
    pub fn owner_of_row(&self, host: u32, number: u32, row: usize) -> Option<u32>
        ensures owner { result ≡ owner self.now.names host number }
        ensures tied { IfSome result (λ i. number_on (account self.now i) host ≡ Some number) }
        ensures within { IfSome result (λ i. i < length self.now.names) }
    {
        self.index.owners.get_near(host, number, row)
    }

    /// The indices of all names, by the names in byte order. No cost.
    pub fn in_byte_order(&self) -> &[u32]
        ensures ordered { AreInByteOrder self.now.names result.now }
        ensures within { All (λ i. i < length self.now.names) result.now }
        ensures lawful { AreLawfulAccounts self.now }
    {
        self.order.as_slice()
    }

    /// The index of a name. One look-up by hash.
    pub fn find(&self, name: &[u8]) -> Option<u32>
        ensures { result ≡ place_of self.now.names name.now }
    {
        match self.index.names.get_index_of(name) {
            Some(index) => Some(index as u32),
            None => None,
        }
    }

    /// The numbers that a name of the class may get: those of its range on every host, less the
    /// pins, the numbers that the pins text keeps for names on no host, and the reserved ones. None
    /// for a pinned name. No cost.
    pub fn pool(&self, class: Class) -> &Pool
        ensures members { (v : ℕ) → lies_in_some result.now v ≡ rules.in_pool self.now class v }
        ensures size { run_size result.now ≡ rules.pool_size self.now class }
        ensures enough { rules.is_free_class class ≡ true
            → rules.names_in self.now class ≤ rules.pool_size self.now class }
    {
        match class {
            Class::Regular => &self.regular,
            Class::System => &self.system,
            Class::Pinned(_) => &self.none,
        }
    }

    /// The numbers that no name is to be given, in the order in which they came with the pins, and
    /// who keeps each from being given. No cost.
    pub fn reserved(&self) -> &[Reserved<'a>]
        ensures { result.now ≡ self.now.reserved }
    {
        self.given.reserved.as_slice()
    }

    /// How many account rows of the kind there are on all hosts. No cost.
    pub fn all_lines(&self) -> u64
        ensures lines { result ≡ all_lines self.now.names }
        ensures few { result ≤ 4194304 }
    {
        self.all_lines
    }

    /// On how many hosts the name at an index has the number. A scan of its spots.
    pub fn lines(&self, index: u32, number: u32) -> u64
        requires { index < length self.now.names }
        ensures { result ≡ lines (account self.now index) number }
    {
        lines_among(self.index.spots(index as usize), number)
    }
}

/// How many spots have the number.
fn lines_among(spots: &[Spot], number: u32) -> u64
    ensures { result ≡ count_by (λ s. s.number == number) spots.now }
{
    spots.iter().filter(|spot| spot.number == number).count() as u64
}
