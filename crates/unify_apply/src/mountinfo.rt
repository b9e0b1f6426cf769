//! The mounts that this process sees, as the system tells them (proc(5)): where a directory is
//! among them, and what is below it.
ghost use Rattle.std.specs.Prelude.{◌≡◌, None, Some, map, option_map, option_copied};
ghost use Rattle.std.specs.Prelude.{IfOk, MatchResult};
ghost use Rattle.idtext.specs.Words.{words};
ghost use Rattle.unify_apply.specs.Mounts.{text_of, kind_in, mount_in, mount_told, mounts_in};
ghost use Rattle.unify_apply.specs.Mounts.{path_byte, path_from, path_in, is_in, is_under};
ghost use Rattle.unify_apply.specs.Mounts.{mount_text, mount_texts, mount_of as mount_of_texts};
ghost use Rattle.unify_apply.specs.Mounts.{first_below as first_of_texts_below};
ghost use Rattle.unify_apply.specs.Mounts.{count_below as count_of_texts_below};
ghost use Rattle.unify_apply.specs.Mounts.{same_below as same_of_texts_below, path_items};
ghost use Rattle.unify_apply.specs.Mounts.{may_be_of as may_be_of_device};
ghost use Rattle.unify_apply.specs.Mounts.{has_one_journal as is_of_one_journal, one_journal};
ghost use Rattle.unify_apply.specs.Mounts.{same_file_system, point_seen};
ghost use Rattle.unify_apply.specs.Mounts.{is_way as is_second_way, second_way};

use idtext::{Character, Lines, Words, first_character};
use std::alloc::{AllocError, Global};

/// A mount: its file system, what kind that is of, and the path where it is, which is empty for
/// the root of all.
#[derive(Drop)]
pub struct Mount<'a> {
    /// The number of the file system.
    pub device: &'a [u8],
    /// What kind it is of.
    pub kind: &'a [u8],
    /// The path.
    pub point: Vec<u8>,
}

// The words of a line that are looked at.
#[derive(Clone, Copy)]
struct MountWords<'a> {
    // The number of the file system, the third word.
    device: &'a [u8],
    // The path, with escapes, the fifth.
    point: &'a [u8],
    // The kind of file system, after the word `-`, before which stand as many as there are.
    kind: &'a [u8],
}

/// A directory's path without the slash that the root of all has. No cost.
pub fn without_slash(path: &[u8]) -> &[u8]
    ensures { result.now ≡ path_from path.now }
{
    path.strip_suffix(b"/").unwrap_or(path)
}

// The byte that a character of a path stands for.
fn byte_of(character: Character) -> u8
    ensures { result ≡ path_byte character }
{
    match character {
        Character::Plain(byte) | Character::Escape(byte) => byte,
        Character::Bad => b'\\',
    }
}

// The path that a word with escapes stands for.
fn unescaped(alloc: Global, word: &[u8]) -> Result<Vec<u8>, AllocError>
    ensures { IfOk result (λ path. path.items ≡ path_in word.now) }
{
    let mut path = Vec::new(alloc);
    let mut rest = without_slash(word);
    while let Some((character, next)) = first_character(rest) {
        path.push(byte_of(character))?;
        rest = next;
    }
    Ok(path)
}

// The first word after the word `-`.
fn kind_behind<'a>(mut words: Words<'a>) -> Option<&'a [u8]>
    ensures { option_copied result ≡ kind_in words.entry }
{
    while let Some(word) = words.next() {
        if word == b"-".as_slice() {
            return words.next();
        }
    }
    None
}

// The words of a line.
fn mount_words(line: &[u8]) -> Option<MountWords<'_>>
    ensures { option_map text_of result ≡ mount_in (words line.now) }
{
    let mut words = Words::new(line);
    let _ = words.next()?;
    let _ = words.next()?;
    let device = words.next()?;
    let _ = words.next()?;
    let point = words.next()?;
    let kind = kind_behind(words)?;
    Some(MountWords {
        device,
        point,
        kind,
    })
}

// The mount that a line tells.
fn read_mount(alloc: Global, line: &[u8]) -> Result<Option<Mount<'_>>, AllocError>
    ensures { IfOk result (λ mount. option_map mount_text mount ≡ mount_told line.now) }
{
    let Some(words) = mount_words(line) else {
        return Ok(None);
    };
    let point = unescaped(alloc, words.point)?;
    Ok(Some(Mount {
        device: words.device,
        kind: words.kind,
        point,
    }))
}

/// The mounts that a text tells, in its order: what was mounted later stands later. One pass over
/// the text; `AllocError` where memory is refused.
pub fn read_mounts(alloc: Global, text: &[u8]) -> Result<Vec<Mount<'_>>, AllocError>
    ensures { IfOk result (λ mounts. mount_texts mounts.items ≡ mounts_in text.now) }
{
    let mut mounts = Vec::new(alloc);
    for line in Lines::new(text) {
        if let Some(mount) = read_mount(alloc, line)? {
            mounts.push(mount)?;
        }
    }
    Ok(mounts)
}

// Whether a path is that of a directory, or of something below it. The path of the root of all is
// empty.
fn is_within(path: &[u8], directory: &[u8]) -> bool
    ensures { result ≡ is_in directory.now path.now }
{
    match path.strip_prefix(directory) {
        Some(rest) => rest.is_empty() || rest.starts_with(b"/"),
        None => false,
    }
}

// Whether a path is below a directory.
fn is_below(path: &[u8], directory: &[u8]) -> bool
    ensures { result ≡ is_under directory.now path.now }
{
    path.len() > directory.len() && is_within(path, directory)
}

// The mount that a directory is in: the nearest to it, and the last of those.
fn mount_of<'m, 'a>(mounts: &'m [Mount<'a>], directory: &[u8]) -> Option<&'m Mount<'a>>
    ensures { option_map mount_text (option_copied result)
        ≡ mount_of_texts (mount_texts mounts.now) directory.now }
{
    let mut found = None;
    let mut nearest: usize = 0;
    for mount in mounts {
        if mount.point.len() >= nearest && is_within(directory, &mount.point) {
            nearest = mount.point.len();
            found = Some(mount);
        }
    }
    found
}

/// The first mount below a directory. One pass over the mounts.
pub fn first_below<'m, 'a>(mounts: &'m [Mount<'a>], directory: &[u8]) -> Option<&'m Mount<'a>>
    ensures { option_map mount_text (option_copied result)
        ≡ first_of_texts_below (mount_texts mounts.now) directory.now }
{
    for mount in mounts {
        if is_below(&mount.point, directory) {
            return Some(mount);
        }
    }
    None
}

/// How many mounts are below a directory. One pass over them.
pub fn count_below(mounts: &[Mount<'_>], directory: &[u8]) -> usize
    ensures { result ≡ count_of_texts_below (mount_texts mounts.now) directory.now }
{
    mounts
        .iter()
        .filter(|mount| is_below(&mount.point, directory))
        .count()
}

// Whether a mount with this number may be of a file system. Any may be, where that one's number is
// not known.
fn may_be_of(number: &[u8], device: Option<&[u8]>) -> bool
    ensures { result ≡ may_be_of_device (option_copied device.entry) number.now }
{
    let Some(device) = device else {
        return true;
    };
    number == device
}

// The paths of the mounts below a directory that may be of the file system with this number.
fn same_below(
    alloc: Global,
    mounts: &[Mount<'_>],
    directory: &[u8],
    device: Option<&[u8]>,
) -> Result<Vec<Vec<u8>>, AllocError>
    ensures { IfOk result (λ paths. path_items paths.items
        ≡ same_of_texts_below (mount_texts mounts.now) directory.now (option_copied device.entry)) }
{
    let mut paths = Vec::new(alloc);
    for mount in mounts {
        if is_below(&mount.point, directory) && may_be_of(mount.device, device) {
            paths.push(Vec::from_slice(alloc, &mount.point)?)?;
        }
    }
    Ok(paths)
}

// Whether a file system of this kind has one journal, if any, so that a sync of one file keeps all
// that was changed before.
fn has_one_journal(kind: &[u8]) -> bool
    ensures { result ≡ is_of_one_journal kind.now }
{
    matches!(kind, b"ext3" | b"ext4" | b"xfs")
}

/// What the mounts tell of a directory.
#[derive(Drop)]
pub struct Around {
    /// Whether its file system is of a kind with one journal, if any.
    pub has_one_journal: bool,
    /// The paths of the mounts below it that are of its file system. Where no line tells the mount
    /// that it is in, as in a root that is a directory of another mount (chroot(2)), any may be of
    /// it, and these are all below it.
    pub same: Vec<Vec<u8>>,
}

/// What a text tells of the directory with this path. One pass over the text and two over its
/// mounts; `AllocError` where memory is refused.
pub fn see_around(alloc: Global, text: &[u8], path: &[u8]) -> Result<Around, AllocError>
    ensures journal { IfOk result
        (λ around. around.has_one_journal ≡ one_journal text.now path.now) }
    ensures same { IfOk result
        (λ around. path_items around.same.items ≡ same_file_system text.now path.now) }
{
    let mounts = read_mounts(alloc, text)?;
    let directory = without_slash(path);
    let Some(mount) = mount_of(&mounts, directory) else {
        return Ok(Around {
            has_one_journal: false,
            same: same_below(alloc, &mounts, directory, None)?,
        });
    };
    Ok(Around {
        has_one_journal: has_one_journal(mount.kind),
        same: same_below(alloc, &mounts, directory, Some(mount.device))?,
    })
}

/// A mount as it was looked at.
#[derive(Drop)]
pub struct Point {
    /// The path where it is.
    pub path: Vec<u8>,
    /// The device number of the file that is seen there, if it could be looked at.
    pub device: Option<u64>,
}

// Whether a mount is a second way to the files with this device number. One that could not be
// looked at is taken for one.
fn is_way(seen: Option<u64>, device: u64) -> bool
    ensures { result ≡ is_second_way device seen }
{
    match seen {
        Some(number) => number == device,
        None => true,
    }
}

// The path of the first of these mounts that is a second way to the files with this device number.
fn first_way(points: &[Point], device: u64) -> Option<&[u8]>
    ensures { option_copied result ≡ second_way device (map point_seen points.now) }
{
    for point in points {
        if is_way(point.device, device) {
            return Some(&point.path);
        }
    }
    None
}

/// Whether the file system of a directory is of a kind with one journal, if any, where none of
/// these mounts below it is a second way to the files with this device number; else the path of the
/// first that is one. All that were found there have to be looked at, in their order. One pass over
/// them.
pub fn one_way<'p>(around: &Around, points: &'p [Point], device: u64) -> Result<bool, &'p [u8]>
    requires looked_at { map (λ point. point.path.items) points.now
        ≡ path_items around.now.same.items }
    ensures { MatchResult result
        (λ journal. (second_way device (map point_seen points.now) ≡ None)
        × (journal ≡ around.now.has_one_journal))
        (λ path. second_way device (map point_seen points.now) ≡ Some path.now) }
{
    match first_way(points, device) {
        Some(path) => Err(path),
        None => Ok(around.has_one_journal),
    }
}
