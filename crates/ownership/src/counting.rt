//! The counters while files are added to them, host by host.
//!
//! The names of a host's rows stand all over the memory, and to find the counter of a number there
//! takes several steps. So the files of a row are only noted, beside the counters of its name. Once
//! all hosts were added, the notes of one name after the other are put into its counters.
ghost use Rattle.std.specs.Prelude.{◌≡◌, ℕ, ◌+◌, ◌<◌, ◌≤◌, ◌==◌, [], List, length, sum, true};
ghost use Rattle.std.specs.Prelude.{◌++◌, IfOk, OnOk, OnErr};
ghost use Rattle.std.specs.List.{All, list_any};
ghost use Rattle.std.specs.List.Sorted.{IsStrictlyIncreasing};
ghost use Rattle.ownership.specs.Counts.{told_kept, told_total, tally_at, count_in, has_cell};
ghost use Rattle.ownership.specs.Counts.{CountsMore, AreMadeFor, AreWithin, CountFiles};
ghost use Rattle.ownership.specs.Counts.{TellTheSame};
ghost use Rattle.ownership.specs.HostFiles.{CountsRows};
ghost use Rattle.ownership.specs.Noted.{with_notes};

use crate::Counts;
use crate::tally::{Cell, KindCounts, Tally};
use hosts_join::{Groups, Host, Kind, Names, Site, Spot, Users};
use std::alloc::{AllocError, Global};
use std::marker::Model;

/// The counters of one kind, and of each name what is noted beside them: so many files with a
/// number, once for each row that owns some.
#[derive(Drop)]
struct KindCounting {
    tallies: Vec<Tally>,
    notes: Vec<Vec<Cell>>,
}

impl Model for KindCounting {
    ghost use Rattle.std.specs.Prelude.{List};
    ghost use Rattle.ownership.specs.Counts as spec;

    ghost Value = { List spec.Tally };

    ghost use Rattle.ownership.specs.NotedInside.{noted_of, AreNoted};

    ghost view = { noted_of };

    ghost invariant = { AreNoted };
}

/// Puts the numbers of spots in place of others, ascending and each once.
fn take_numbers(numbers: &mut Vec<u32>, spots: &[Spot]) -> Result<(), AllocError>
    ensures ascending { OnOk result (IsStrictlyIncreasing numbers.new.items) }
    ensures same { OnOk result ((v : ℕ) → list_any (λ n. v == n) numbers.new.items
        ≡ list_any (λ s. v == s.number) spots.now) }
{
    numbers.clear();
    for spot in spots {
        numbers.push(spot.number)?;
    }
    numbers.sort_unstable();
    numbers.dedup();
    Ok(())
}

/// The files of all rows.
fn all_files(files: &[u64]) -> u64
    requires { sum files.now ≤ 16777216 }
    ensures { result ≡ sum files.now }
{
    let mut all = 0;
    for row in files {
        all += row;
    }
    all
}

/// Puts notes into the counters of their name.
fn settle(tally: &mut Tally, notes: &[Cell])
    requires there { All (λ c. has_cell tally.old.cells c.number ≡ true) notes.now }
    requires kept { (v : ℕ) → count_in (with_notes tally.old notes.now).cells v ≤ 2147483648 }
    requires total { (with_notes tally.old notes.now).total ≤ 2147483648 }
    ensures total { tally.new.total ≡ (with_notes tally.old notes.now).total }
    ensures cells { (v : ℕ) → has_cell tally.new.cells v ≡ has_cell tally.old.cells v }
    ensures counts { (v : ℕ) → count_in tally.new.cells v
        ≡ count_in (with_notes tally.old notes.now).cells v }
{
    for note in notes {
        tally.add(note.number, u64::from(note.files));
    }
}

impl KindCounting {
    /// Counters at zero for the names. A name has no more rows than hosts.
    fn new(alloc: Global, names: &Names<'_>) -> Result<Self, AllocError>
        ensures made { IfOk result (λ k. AreMadeFor names.now.names k) }
        ensures zero { IfOk result (λ k. CountFiles names.now.names k []) }
    {
        let mut numbers = Vec::new(alloc);
        let mut tallies = Vec::with_capacity(alloc, names.len() as usize)?;
        let mut notes = Vec::with_capacity(alloc, names.len() as usize)?;
        for index in 0..names.len() {
            let spots = names.spots(index);
            take_numbers(&mut numbers, spots)?;
            tallies.push(Tally::of(alloc, numbers.as_slice())?)?;
            notes.push(Vec::with_capacity(alloc, spots.len())?)?;
        }
        Ok(KindCounting { tallies, notes })
    }

    /// Notes so many files of the name, with its number.
    fn note_files(&mut self, name: u32, number: u32, files: u64) -> Result<(), AllocError>
        requires within { name < length self.old }
        requires there { has_cell (tally_at self.old name).cells number ≡ true }
        requires kept { told_kept self.old name number + files ≤ 2147483648 }
        requires total { told_total self.old name + files ≤ 2147483648 }
        ensures more { OnOk result (CountsMore self.old self.new name number files) }
        ensures same { OnErr result (TellTheSame self.old self.new) }
    {
        self.notes[name as usize].push(Cell {
            number,
            files: files as u32,
        })?;
        Ok(())
    }

    /// Counts the files of a host, so many of each row. A row without files costs nothing more than
    /// to see that: on many hosts most accounts own none. Where memory is refused, those of the
    /// first rows are counted.
    fn add_rows<K: Kind>(
        &mut self,
        names: &Names<'_>,
        index: u32,
        host: &Host<'_>,
        files: &[u64],
    ) -> Result<(), AllocError>
        requires made { AreMadeFor names.now.names self.old }
        requires rows { length files.now ≡ length (K.listed host.now) }
        requires room { AreWithin self.old 1073741824 }
        requires few { sum files.now ≤ 16777216 }
        ensures first { (rows : ℕ) × (rows ≤ length files.now)
            × CountsRows names.now.names index (K.listed host.now) files.now rows
            self.old self.new }
        ensures all { OnOk result (CountsRows names.now.names index (K.listed host.now) files.now
            (length files.now) self.old self.new) }
    {
        for row in 0..K::count(host) {
            if files[row] == 0 {
                continue;
            }
            let number = K::number(host, row);
            if let Some(name) = names.owner_of_row(index, number, row) {
                self.note_files(name, number, files[row])?;
            }
        }
        Ok(())
    }

    /// The counters, with what was noted in them.
    fn settled(self) -> KindCounts
        ensures { TellTheSame self result }
    {
        let KindCounting { mut tallies, notes } = self;
        for (index, noted) in notes.iter().enumerate() {
            settle(&mut tallies[index], noted.as_slice());
        }
        KindCounts { tallies }
    }
}

/// The counters of a site while the files of its hosts are added.
#[derive(Drop)]
pub struct Counting {
    users: KindCounting,
    groups: KindCounting,
    user_files: u64,
    group_files: u64,
}

impl Model for Counting {
    ghost use Rattle.ownership.specs.Counts.{Counted};

    ghost Value = { Counted };

    ghost use Rattle.ownership.specs.CountedInside.{counted_so_far, IsCounting};

    ghost view = { counted_so_far };

    ghost invariant = { IsCounting };
}

impl Counting {
    ghost use Rattle.ownership.specs.Files.{Added};
    ghost use Rattle.ownership.specs.Counts.{StandsFor, IsMadeFor, AreWithin};
    ghost use Rattle.ownership.specs.HostFiles.{AreOfHost, AreRowCounts, CountsFirstRows};
    ghost use Rattle.hosts_join.specs.Site.{Joined};
    ghost use Rattle.hosts_join.specs.Hosts.{IsLawfulHost};
    ghost use Rattle.hosts_join.specs.Laws.{HasLawfulAccounts, KnowsHost};

    /// Counters at zero for a site. Memory in step with the rows of its hosts; `AllocError` where
    /// it is refused.
    pub fn new(alloc: Global, site: &Site<'_>) -> Result<Self, AllocError>
        ensures made { IfOk result (IsMadeFor site.now) }
        ensures empty { IfOk result (λ c. StandsFor site.now c []) }
    {
        Ok(Counting {
            users: KindCounting::new(alloc, site.users())?,
            groups: KindCounting::new(alloc, site.groups())?,
            user_files: 0,
            group_files: 0,
        })
    }

    /// Adds the files of a whole host: `users` has how many of them each row of its passwd owns,
    /// and `groups` how many each row of its group. A file whose uid no row has is counted for no
    /// user, and one whose gid no row has for no group. Requires that the counters were made for
    /// this site, whose accounts are lawful and which knows the lawful host by this index; that
    /// there are files of the host, at most 16777216 of them, of which these are the counts; and
    /// that of the files that were added before at most 1073741824 have a user, and at most as many
    /// a group.
    ///
    /// One pass over the counts of the rows; for each row that owns files a step, and memory for a
    /// note, which `new` has taken for one row of each name and host. `AllocError` where more is
    /// refused: then the files of the first rows alone are counted, though those of all rows are
    /// said to have a user, and a group.
    pub fn add_host(
        &mut self,
        site: &Site<'_>,
        index: u32,
        host: &Host<'_>,
        users: &[u64],
        groups: &[u64],
    ) -> Result<(), AllocError>
        requires made { IsMadeFor site.now self.old }
        requires lawful { HasLawfulAccounts site.now }
        requires lawful_host { IsLawfulHost host.now }
        requires known { KnowsHost site.now index host.now }
        requires counted { (here : List Added) × AreOfHost index here
            × AreRowCounts host.now here users.now groups.now × (length here ≤ 16777216) }
        requires room { (self.old.user_files ≤ 1073741824) × (self.old.group_files ≤ 1073741824) }
        ensures made { IsMadeFor site.now self.new }
        ensures first { OnErr result
            (CountsFirstRows site.now index host.now users.now groups.now self.old self.new) }
        ensures added { OnOk result ((files here : List Added)
            → StandsFor site.now self.old files
            → AreOfHost index here → AreRowCounts host.now here users.now groups.now
            → StandsFor site.now self.new (files ++ here)) }
    {
        self.user_files += all_files(users);
        self.group_files += all_files(groups);
        self.users
            .add_rows::<Users>(site.users(), index, host, users)?;
        self.groups
            .add_rows::<Groups>(site.groups(), index, host, groups)?;
        Ok(())
    }

    /// The counters of what was added. For each row that owned files a bisection of at most 64
    /// counters. It takes no memory.
    pub fn finish(self) -> Counts
        ensures made { (site : Joined) → IsMadeFor site self → IsMadeFor site result }
        ensures counted { (site : Joined) (files : List Added)
            → StandsFor site self files → StandsFor site result files }
    {
        let Counting {
            users,
            groups,
            user_files,
            group_files,
        } = self;
        Counts {
            users: users.settled(),
            groups: groups.settled(),
            user_files,
            group_files,
        }
    }
}
