//! Each host's own passwd and group with their new numbers are written.

ghost use Rattle.std.specs.Prelude.{◌≡◌, ◌<◌, ◌++◌, ◌∷◌, [], length, true, Some, slice_get};
ghost use Rattle.std.specs.Prelude.{OnOk, IfErr, OnErr};
ghost use Rattle.hosts_join.specs.declared.host.Host.{Host};
ghost use Rattle.unify_laws.specs.HostTexts.{group_file, host_files, passwd_file};
ghost use Rattle.unify_merge.specs.Failures.{failure_after};
ghost use Rattle.unify_merge.specs.Ledger.{BrokeOff, after_files};
ghost use Rattle.unify_merge.specs.HostFiles.{HasFiles, StopsWriting};

use crate::fault::MergeFault;
use crate::files::MergeFiles;
use crate::whole_file::write_file;
use hosts_join::HostText;
use std::alloc::Global;
use unify::{Solved, host_file_name};

// Writes a text as a file of a host, whose name begins so.
fn write_text<'a, F: MergeFiles>(
    alloc: Global,
    files: &mut F,
    start: &[u8],
    host: &HostText,
    text: &[u8],
) -> Result<(), MergeFault<'a>>
    requires clear { (F.ledger files.old).is_clear ≡ true }
    ensures written { OnOk result
        (F.ledger files.new
        ≡ after_files (record { name = start.now ++ host.now.name; text = text.now } ∷ [])
        (F.ledger files.old)) }
    ensures stopped { IfErr result StopsWriting }
    ensures calls { F.failure files.new ≡ failure_after result (F.failure files.old) }
    ensures left { OnErr result
        (BrokeOff (record { name = start.now ++ host.now.name; text = text.now } ∷ [])
        (F.ledger files.old) (F.ledger files.new)) }
{
    let name = host_file_name(alloc, start, host)?;
    write_file(files, &name, text)?;
    Ok(())
}

// Writes a host's own passwd.
fn write_passwd<'a, F: MergeFiles>(
    alloc: Global,
    files: &mut F,
    solved: &Solved<'_>,
    index: usize,
    host: &HostText,
) -> Result<(), MergeFault<'a>>
    requires clear { (F.ledger files.old).is_clear ≡ true }
    requires within { index < length solved.now.hosts }
    ensures written { OnOk result
        ((here : Host) → slice_get solved.now.hosts index ≡ Some here
        → F.ledger files.new
        ≡ after_files
        (passwd_file here solved.now.joined solved.now.merged.mappings host.now ∷ [])
        (F.ledger files.old)) }
    ensures stopped { IfErr result StopsWriting }
    ensures calls { F.failure files.new ≡ failure_after result (F.failure files.old) }
    ensures left { OnErr result
        ((here : Host) → slice_get solved.now.hosts index ≡ Some here
        → BrokeOff
        (passwd_file here solved.now.joined solved.now.merged.mappings host.now ∷ [])
        (F.ledger files.old) (F.ledger files.new)) }
{
    let text = solved.host_passwd(index, host.passwd.bytes())?;
    write_text(alloc, files, b"passwd.", host, &text)
}

// Writes a host's own group.
fn write_group<'a, F: MergeFiles>(
    alloc: Global,
    files: &mut F,
    solved: &Solved<'_>,
    host: &HostText,
) -> Result<(), MergeFault<'a>>
    requires clear { (F.ledger files.old).is_clear ≡ true }
    ensures written { OnOk result
        (F.ledger files.new
        ≡ after_files (group_file solved.now.joined solved.now.merged.mappings host.now ∷ [])
        (F.ledger files.old)) }
    ensures stopped { IfErr result StopsWriting }
    ensures calls { F.failure files.new ≡ failure_after result (F.failure files.old) }
    ensures left { OnErr result
        (BrokeOff (group_file solved.now.joined solved.now.merged.mappings host.now ∷ [])
        (F.ledger files.old) (F.ledger files.new)) }
{
    let text = solved.host_group(host.group.bytes())?;
    write_text(alloc, files, b"group.", host, &text)
}

// Writes both files of the host with the index.
fn write_host<'a, F: MergeFiles>(
    alloc: Global,
    files: &mut F,
    solved: &Solved<'_>,
    index: usize,
    host: &HostText,
) -> Result<(), MergeFault<'a>>
    requires clear { (F.ledger files.old).is_clear ≡ true }
    requires within { index < length solved.now.hosts }
    ensures written { OnOk result
        ((here : Host) → slice_get solved.now.hosts index ≡ Some here
        → F.ledger files.new
        ≡ after_files
        (passwd_file here solved.now.joined solved.now.merged.mappings host.now
        ∷ group_file solved.now.joined solved.now.merged.mappings host.now ∷ [])
        (F.ledger files.old)) }
    ensures stopped { IfErr result StopsWriting }
    ensures calls { F.failure files.new ≡ failure_after result (F.failure files.old) }
    ensures left { OnErr result
        ((here : Host) → slice_get solved.now.hosts index ≡ Some here
        → BrokeOff
        (passwd_file here solved.now.joined solved.now.merged.mappings host.now
        ∷ group_file solved.now.joined solved.now.merged.mappings host.now ∷ [])
        (F.ledger files.old) (F.ledger files.new)) }
{
    write_passwd(alloc, files, solved, index, host)?;
    write_group(alloc, files, solved, host)
}

/// Writes both files of each host, one host after the other; one text is in memory at a time.
pub fn write_hosts<'a, F: MergeFiles>(
    alloc: Global,
    files: &mut F,
    solved: &Solved<'_>,
    hosts: &[HostText],
) -> Result<(), MergeFault<'a>>
    requires clear { (F.ledger files.old).is_clear ≡ true }
    requires each { length hosts.now ≡ length solved.now.hosts }
    ensures written { OnOk result
        (HasFiles
        (host_files solved.now.joined solved.now.merged.mappings hosts.now solved.now.hosts)
        (F.ledger files.old) (F.ledger files.new)) }
    ensures stopped { IfErr result StopsWriting }
    ensures calls { F.failure files.new ≡ failure_after result (F.failure files.old) }
    ensures left { OnErr result
        (BrokeOff
        (host_files solved.now.joined solved.now.merged.mappings hosts.now solved.now.hosts)
        (F.ledger files.old) (F.ledger files.new)) }
    ensures clear { OnOk result ((F.ledger files.new).is_clear ≡ true) }
{
    for (index, host) in hosts.iter().enumerate() {
        write_host(alloc, files, solved, index, host)?;
    }
    Ok(())
}
