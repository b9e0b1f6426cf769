//! Files that are there whole or not at all.
ghost use Rattle.std.specs.Prelude.{◌≡◌, ◌∷◌, ◌++◌, IfOk, OnOk, OnErr, is_none};
ghost use Rattle.std.specs.String.{string_bytes};
ghost use Rattle.reown_files.specs.Actions.{FileRead, TextPut, NameSynced, FileRemoved};
ghost use Rattle.reown_files.specs.Actions.{new_beside};
ghost use Rattle.reown_files.specs.ActionsCode.{text_in};
ghost use Rattle.reown_files.specs.RootData.{IsPathFrom};

use crate::Trouble;
use crate::actions::{Action, ActionLog};
use crate::walk::{Directory, Kind, if_there, look_through, open_seen};
use std::fs::File;
use std::io::Write;
use std::path::Path;
use std::{fs, io};

// What is after its name while it is written.
const NEW: &str = ".new";

// The bytes of a regular file, or as many of them as this, if it is there.
fn bytes_of(
    rt: &HostRuntime,
    path: &str,
    most: u64,
    refused: Trouble,
) -> Result<Option<Vec<u8>>, Trouble> {
    let Some(seen) = if_there(look_through(rt, path))? else {
        return Ok(None);
    };
    if seen.kind != Kind::Regular {
        return Err(refused);
    }
    let Some(file) = if_there(open_seen(rt, path, &seen))? else {
        return Ok(None);
    };
    Ok(Some(file.read(rt.alloc(), most)?))
}

/// The bytes of a regular file, or as many of them as this, if it is there. What is none, as a pipe
/// that would make the opening wait, is not opened but refused with this.
pub fn read_whole(
    rt: &HostRuntime,
    path: &str,
    most: u64,
    refused: Trouble,
    log: &mut ActionLog,
) -> Result<Option<Vec<u8>>, Trouble>
    ensures read { IfOk result
        (λ text. log.new.actions ≡ FileRead path.now (text_in text) ∷ log.old.actions) }
    ensures undone { OnErr result (log.new.actions ≡ log.old.actions) }
{
    let text = bytes_of(rt, path, most, refused)?;
    match &text {
        Some(text) => log.note(&Action::FileRead(path.as_bytes(), text.as_slice())),
        None => log.note(&Action::FileMissed(path.as_bytes())),
    }
    Ok(text)
}

// Writes a new file, synced.
fn write(rt: &HostRuntime, new: &str, text: &[u8]) -> io::Result<()> {
    let _ = fs::remove_file(rt, new);
    let mut file = File::create_new(rt, new)?;
    file.write_all(text)?;
    file.sync_all()
}

// Puts a text at a path, by way of a new file.
fn write_over(
    rt: &HostRuntime,
    new: &str,
    path: &str,
    text: &[u8],
    log: &mut ActionLog,
) -> io::Result<()>
    ensures put { OnOk result
        (log.new.actions ≡ TextPut new.now path.now text.now ∷ log.old.actions) }
    ensures undone { OnErr result (log.new.actions ≡ log.old.actions) }
{
    write(rt, new, text)?;
    fs::rename(rt, new, path)?;
    log.note(&Action::TextPut(new.as_bytes(), path.as_bytes(), text));
    Ok(())
}

/// A path with more after it.
pub fn path_with(rt: &HostRuntime, path: &str, behind: &str) -> Result<String, Trouble>
    ensures { IfOk result (λ whole. string_bytes whole ≡ path.now ++ behind.now) }
{
    Ok(format!(in rt.alloc(); "{path}{behind}")?)
}

/// A path that leads from anywhere to where another leads from a directory; the same path where it
/// begins at none.
pub fn path_from(rt: &HostRuntime, from: Option<&Directory>, path: &str) -> Result<String, Trouble>
    ensures { IfOk result (λ whole. IsPathFrom (is_none from.entry) path.now (string_bytes whole)) }
{
    let Some(from) = from else {
        return path_with(rt, path, "");
    };
    let mut whole = from.way_to(rt)?;
    whole.push_str("/")?;
    whole.push_str(path)?;
    Ok(whole)
}

/// Puts a text at a path, whole or not at all: it is written under another name, synced, and
/// renamed. What was written is removed where that fails.
pub fn put_whole(
    rt: &HostRuntime,
    path: &str,
    text: &[u8],
    log: &mut ActionLog,
) -> Result<(), Trouble>
    ensures put { OnOk result (log.new.actions
        ≡ TextPut (new_beside path.now) path.now text.now ∷ log.old.actions) }
    ensures undone { OnErr result (log.new.actions ≡ log.old.actions) }
{
    let new = path_with(rt, path, NEW)?;
    let put = write_over(rt, new.as_str(), path, text, log);
    if put.is_err() {
        let _ = fs::remove_file(rt, new.as_str());
    }
    put?;
    Ok(())
}

/// Removes the file at a path, if it is there.
pub fn remove_file(rt: &HostRuntime, path: &str, log: &mut ActionLog) -> Result<(), Trouble>
    ensures removed { OnOk result (log.new.actions ≡ FileRemoved path.now ∷ log.old.actions) }
    ensures undone { OnErr result (log.new.actions ≡ log.old.actions) }
{
    if_there(fs::remove_file(rt, path).map_err(Trouble::from))?;
    log.note(&Action::FileRemoved(path.as_bytes()));
    Ok(())
}

/// Waits until the name of a file has reached the device.
pub fn sync_name(rt: &HostRuntime, path: &str, log: &mut ActionLog) -> Result<(), Trouble>
    ensures synced { OnOk result (log.new.actions ≡ NameSynced path.now ∷ log.old.actions) }
    ensures undone { OnErr result (log.new.actions ≡ log.old.actions) }
{
    let parent = match Path::new(path).parent() {
        Some(parent) if !parent.as_str().is_empty() => parent.as_str(),
        _ => ".",
    };
    Directory::at(rt, parent)?.sync()?;
    log.note(&Action::NameSynced(path.as_bytes()));
    Ok(())
}
