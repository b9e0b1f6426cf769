//! What the tables of the join give: classes, claims and ranges.
ghost use Rattle.std.specs.Prelude.{◌≡◌, ℕ, ◌&&◌, ◌++◌, Some, None, map, count_by, IfOk, IfErr};
ghost use Rattle.std.specs.Prelude.{OnOk, IfSome};
ghost use Rattle.std.specs.List.{list_all};
ghost use Rattle.logindefs.specs.Ranges.{in_range};
ghost use Rattle.hosts_join.specs.Rules as rules;
ghost use Rattle.hosts_join.specs.Told.{told};
ghost use Rattle.hosts_join.specs.Index.{accounts_in, ArePaired};
ghost use Rattle.hosts_join.specs.Views.{entry_of, pairs_of};

use crate::classes::class_of;
use crate::index::Index;
use crate::{Class, HostEntry, Pair, PairTable, SiteFault, Source, Which};
use idtext::{GREATEST_ID, Name};
use logindefs::IdRange;
use std::alloc::{AllocError, Global};

// All numbers that an account may have.
const ANY_ID: IdRange = IdRange {
    low: 0,
    high: GREATEST_ID,
};

/// The name of the host that pins, or `None` for the pins text.
fn host_name<'a>(hosts: &[HostEntry<'a>], source: &Source) -> Option<Name<'a>>
    ensures { result ≡ rules.host_name (map entry_of hosts.now) source.now }
{
    match source.host {
        Some(host) => match hosts.get(host as usize) {
            Some(entry) => Some(Name::new(entry.name)),
            None => None,
        },
        None => None,
    }
}

/// The class of each name, or the first name whose pins disagree.
pub fn classes<'a>(
    alloc: Global,
    kind: Which,
    hosts: &[HostEntry<'a>],
    index: &Index<'a>,
    pins: &PairTable<'a>,
) -> Result<Vec<Class>, SiteFault<'a>>
    requires { ArePaired index.now }
    ensures classes { IfOk result (λ classes. classes.items
        ≡ map (rules.class_of pins.now) (accounts_in index.now)) }
    ensures agreed { OnOk result
        (rules.first_some (rules.disagrees kind (map entry_of hosts.now) pins.now)
        (accounts_in index.now) ≡ None) }
    ensures disagreed { IfErr result (λ e. IfSome (told e)
        (λ f. rules.first_some (rules.disagrees kind (map entry_of hosts.now) pins.now)
        (accounts_in index.now) ≡ Some f)) }
{
    let mut classes = Vec::new(alloc);
    for place in 0..index.len() {
        let name = index.name(place);
        match class_of(pins.number(name), index.spots(place)) {
            Ok(class) => classes.push(class)?,
            Err((first, second)) => {
                return Err(SiteFault::PinDisagrees {
                    kind,
                    name: Name::new(name),
                    first: host_name(hosts, &first),
                    second: host_name(hosts, &second),
                });
            }
        }
    }
    Ok(classes)
}

/// The names that are pinned, each with its pin.
fn pinned_names<'a>(
    alloc: Global,
    index: &Index<'a>,
    classes: &[Class],
    pins: &PairTable<'a>,
) -> Result<Vec<Pair<'a>>, AllocError>
    requires paired { ArePaired index.now }
    requires classes { classes.now ≡ map (rules.class_of pins.now) (accounts_in index.now) }
    ensures { IfOk result (λ claims. pairs_of claims.items
        ≡ rules.pinned_names pins.now (accounts_in index.now)) }
{
    let mut claims = Vec::new(alloc);
    for place in 0..classes.len() {
        if let Class::Pinned(number) = classes[place] {
            claims.push(Pair {
                name: index.name(place),
                number,
            })?;
        }
    }
    Ok(claims)
}

/// The numbers that are given away: to pinned names, and to names in the pins text that no host
/// has.
pub fn claims<'a>(
    alloc: Global,
    index: &Index<'a>,
    classes: &[Class],
    pins: &PairTable<'a>,
) -> Result<Vec<Pair<'a>>, AllocError>
    requires paired { ArePaired index.now }
    requires classes { classes.now ≡ map (rules.class_of pins.now) (accounts_in index.now) }
    ensures { IfOk result (λ claims. pairs_of claims.items
        ≡ rules.pinned_names pins.now (accounts_in index.now)
        ++ rules.absent_pins (accounts_in index.now) pins.now) }
{
    let mut claims = pinned_names(alloc, index, classes, pins)?;
    for place in 0..pins.len() {
        let pin = pins.at(place);
        if !index.has_name(pin.name) {
            claims.push(pin)?;
        }
    }
    Ok(claims)
}

/// The numbers that are regular on each of the hosts.
pub fn common_regular(hosts: &[HostEntry<'_>]) -> IdRange
    ensures { (v : ℕ) → in_range result v
        ≡ (rules.is_id v && list_all (λ h. in_range h.regular v) hosts.now) }
{
    let mut common = ANY_ID;
    for host in hosts {
        common = common.meet(&host.regular);
    }
    common
}

/// The numbers that are system numbers on each of the hosts.
pub fn common_system(hosts: &[HostEntry<'_>]) -> IdRange
    ensures { (v : ℕ) → in_range result v
        ≡ (rules.is_id v && list_all (λ h. in_range h.system v) hosts.now) }
{
    let mut common = ANY_ID;
    for host in hosts {
        common = common.meet(&host.system);
    }
    common
}

/// How many names have the class.
pub fn names_in(classes: &[Class], class: Class) -> u64
    ensures { result ≡ count_by (rules.same_class class) classes.now }
{
    classes.iter().filter(|c| class.is_same(**c)).count() as u64
}
