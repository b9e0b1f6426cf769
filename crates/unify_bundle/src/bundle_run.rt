//! From the bytes of a bundle to the bytes that go out.

ghost use Rattle.std.specs.Prelude.{◌≡◌, ◌≢◌, ◌+◌, [], IfOk, MatchBool, false, drop};
ghost use Rattle.idtext.specs.First.{Gives};
ghost use Rattle.std.specs.List.{position};
ghost use Rattle.std.specs.Prelude.{◌==◌};
ghost use Rattle.unify_texts.specs.BundleLines.{file_index};
ghost use Rattle.std.specs.Io.KnownBytes.{Appends};
ghost use Rattle.unify_bundle.specs.Output.{text_in, host_text, host_texts, files_before_hosts};
ghost use Rattle.unify_bundle.specs.Output.{count_lines, check_lines, IsMergeReply};
ghost use Rattle.unify_bundle.specs.Output.{IsRehearseReply, answered, Answers};
ghost use Rattle.unify_bundle.specs.Output.{IsReply, IsOutput, Tells, TakesAtMost};
ghost use Rattle.unify_bundle.specs.Output.{IsMergeWithHostsReply, most_bundle_bytes, rules_for};
ghost use Rattle.unify_texts.specs.Told.{told};
ghost use Rattle.unify_bundle.specs.Replies.{reply_of};

use crate::input::{ReadFault, read_input};
use crate::merge_text::{merge_hosts_reply, merge_reply};
use crate::rehearsal_reply::rehearse_reply;
use crate::reply::{Reply, check_reply, count_reply, refused};
use crate::streams::{Sink, Source};
use crate::texts::survey_texts;
use hosts_join::HostText;
use idtext::ByteString;
use site_tables::{KeepRules, SiteRules};
use std::alloc::{AllocError, Global};
use std::mem;
use unify_texts::{Bundle, Command, Fault, FileName, NamedFile, Place, read_bundle};

// Where a file stands among the files of a place.
fn index_of(files: &[NamedFile], file: FileName) -> Option<usize>
    ensures { result ≡ position (λ named. file_index named.file == file_index file) files.now }
{
    files
        .iter()
        .position(|named| named.file.index() == file.index())
}

// Takes the text of a file out of the files of a place; it is empty where the file is not there.
fn take_text(alloc: Global, files: &mut Vec<NamedFile>, file: FileName) -> ByteString
    ensures text { result ≡ text_in files.old.items file }
    ensures others { (other : FileName) → file_index other ≢ file_index file
        → text_in files.new.items other ≡ text_in files.old.items other }
{
    match index_of(files.as_slice(), file) {
        Some(index) => mem::replace(&mut files[index].text, ByteString::new(alloc)),
        None => ByteString::new(alloc),
    }
}

// The host of a place. Its texts are moved, and no memory is taken.
fn host_of_place(alloc: Global, place: Place) -> HostText
    ensures { result ≡ host_text place }
{
    let mut files = place.files.into_vec();
    HostText {
        name: place.name,
        passwd: take_text(alloc, &mut files, FileName::Passwd),
        group: take_text(alloc, &mut files, FileName::Group),
        logindefs: take_text(alloc, &mut files, FileName::LoginDefs),
        mtree: take_text(alloc, &mut files, FileName::Mtree),
    }
}

// The hosts of places.
fn hosts_of(alloc: Global, places: Vec<Place>) -> Result<Vec<HostText>, AllocError>
    ensures { IfOk result (λ hosts. hosts.items ≡ host_texts places.items) }
{
    places
        .into_iter()
        .map(|place| host_of_place(alloc, place))
        .collect(alloc)
}

// Takes the files before the first host; these are gone then.
fn take_head(alloc: Global, places: &mut Vec<Place>) -> Vec<NamedFile>
    ensures files { result.items ≡ files_before_hosts places.old.items }
    ensures rest { places.new.items ≡ drop 1 places.old.items }
{
    if places.is_empty() {
        return Vec::new(alloc);
    }
    places.remove(0).files.into_vec()
}

// The pins text and the keep text of a bundle.
#[derive(Drop)]
struct RuleTexts {
    pins: ByteString,
    keep: ByteString,
}

// Takes the texts that a site goes by out of the files before the first host.
fn take_rules(alloc: Global, files: &mut Vec<NamedFile>) -> RuleTexts
    ensures pins { result.pins ≡ text_in files.old.items FileName.Pins }
    ensures keep { result.keep ≡ text_in files.old.items FileName.Keep }
{
    let pins = take_text(alloc, files, FileName::Pins);
    let keep = take_text(alloc, files, FileName::Keep);
    RuleTexts { pins, keep }
}

// The rules of these texts, with the numbers without an account that the files of the hosts have,
// where the keep text keeps them.
fn rules_of<'a>(
    alloc: Global,
    hosts: &'a [HostText],
    texts: &'a RuleTexts,
) -> Result<SiteRules<'a>, Fault<'a>>
    ensures { Gives (λ rules. rules) told result
        (rules_for hosts.now texts.now.pins texts.now.keep) }
{
    let keep = texts.keep.bytes();
    let unowned = survey_texts(alloc, hosts, keep)?;
    Ok(SiteRules::new(texts.pins.bytes(), KeepRules::new(keep, unowned)))
}

// What goes out for `run count`.
fn run_count(alloc: Global, mut places: Vec<Place>) -> Result<Reply, AllocError>
    ensures { IfOk result (λ reply. reply_of reply ≡ answered (count_lines places.items)) }
{
    let mut head = take_head(alloc, &mut places);
    let map = take_text(alloc, &mut head, FileName::Map);
    let texts = take_rules(alloc, &mut head);
    let hosts = hosts_of(alloc, places)?;
    match rules_of(alloc, &hosts, &texts) {
        Ok(rules) => count_reply(alloc, &hosts, &rules.keep, map.bytes()),
        Err(fault) => refused(alloc, &fault),
    }
}

// What goes out for `run merge`.
fn run_merge(alloc: Global, mut places: Vec<Place>) -> Result<Reply, AllocError>
    ensures { IfOk result (λ reply. Answers (IsMergeReply places.items) (reply_of reply)) }
{
    let mut head = take_head(alloc, &mut places);
    let texts = take_rules(alloc, &mut head);
    let hosts = hosts_of(alloc, places)?;
    match rules_of(alloc, &hosts, &texts) {
        Ok(rules) => merge_reply(alloc, &hosts, &rules),
        Err(fault) => refused(alloc, &fault),
    }
}

// What goes out for `run merge hosts`.
fn run_merge_hosts(alloc: Global, mut places: Vec<Place>) -> Result<Reply, AllocError>
    ensures { IfOk result
        (λ reply. Answers (IsMergeWithHostsReply places.items) (reply_of reply)) }
{
    let mut head = take_head(alloc, &mut places);
    let texts = take_rules(alloc, &mut head);
    let hosts = hosts_of(alloc, places)?;
    match rules_of(alloc, &hosts, &texts) {
        Ok(rules) => merge_hosts_reply(alloc, &hosts, &rules),
        Err(fault) => refused(alloc, &fault),
    }
}

// What goes out for `run check`.
fn run_check(alloc: Global, mut places: Vec<Place>) -> Result<Reply, AllocError>
    ensures { IfOk result (λ reply. reply_of reply ≡ answered (check_lines places.items)) }
{
    let mut head = take_head(alloc, &mut places);
    let certificate = take_text(alloc, &mut head, FileName::Certificate);
    let texts = take_rules(alloc, &mut head);
    let hosts = hosts_of(alloc, places)?;
    match rules_of(alloc, &hosts, &texts) {
        Ok(rules) => check_reply(alloc, &hosts, &rules, certificate.bytes()),
        Err(fault) => refused(alloc, &fault),
    }
}

// What goes out for `run rehearse`.
fn run_rehearse(alloc: Global, mut places: Vec<Place>) -> Result<Reply, AllocError>
    ensures { IfOk result (λ reply. Answers (IsRehearseReply places.items) (reply_of reply)) }
{
    let mut head = take_head(alloc, &mut places);
    let plan = take_text(alloc, &mut head, FileName::Plan);
    let mtree = take_text(alloc, &mut head, FileName::Mtree);
    rehearse_reply(alloc, plan.bytes(), mtree.bytes())
}

// What goes out for the command of a bundle.
fn run(alloc: Global, bundle: Bundle) -> Result<Reply, AllocError>
    ensures { IfOk result
        (λ reply. Answers (IsReply bundle.command bundle.places) (reply_of reply)) }
{
    match bundle.command {
        Command::Count => run_count(alloc, bundle.places.into_vec()),
        Command::Merge => run_merge(alloc, bundle.places.into_vec()),
        Command::MergeHosts => run_merge_hosts(alloc, bundle.places.into_vec()),
        Command::Check => run_check(alloc, bundle.places.into_vec()),
        Command::Rehearse => run_rehearse(alloc, bundle.places.into_vec()),
    }
}

/// What goes out for a bundle: its command's answer, or the line of its first fault, each with its
/// exit status. `AllocError` where memory was refused. It takes time linear in the bundle and what
/// its command takes.
#[tactic(auto, unfolding(crate::specs::Output::IsOutput))]
pub fn answer(alloc: Global, input: &[u8]) -> Result<Reply, AllocError>
    ensures { IfOk result (λ reply. IsOutput input.now (reply_of reply)) }
{
    match read_bundle(alloc, input) {
        Ok(bundle) => run(alloc, bundle),
        Err(fault) => refused(alloc, &fault),
    }
}

// Writes an answer, and hands out its status, or 3 after a failed write.
fn tell<W: Sink>(writer: &mut W, text: &[u8], status: u8) -> u8
    requires { W.has_failed writer.old ≡ false }
    ensures told { MatchBool (W.has_failed writer.new) (result ≡ 3)
        ((result ≡ status) × Appends (W.contents writer.old) (W.contents writer.new) text.now) }
    ensures handed_on { W.has_failed writer.new ≡ false → W.waiting writer.new ≡ [] }
{
    match writer.write_all(text) {
        Ok(()) => status,
        Err(_) => 3,
    }
}

/// Reads a bundle, writes what goes out for it, and answers the exit status.
///
/// What goes out is the answer of the bundle's command or its fault line; `unify: read` with status
/// 3, where a read failed or the bundle has more than 268,435,456 bytes; or `unify: memory` with
/// status 3, where a growth was refused. After a failed write the status is 3; else all of it was
/// handed on. It takes time linear in the bundle and what its command takes, and keeps the bundle
/// in memory until it is read, and then its files.
pub fn run_bundle<R: Source, W: Sink>(alloc: Global, reader: &mut R, writer: &mut W) -> u8
    requires reads { R.has_failed reader.old ≡ false }
    requires writes { W.has_failed writer.old ≡ false }
    ensures tells { Tells (R.left reader.old) (R.has_failed reader.new) (W.contents writer.old)
        (W.contents writer.new) (W.has_failed writer.new) result }
    ensures handed_on { W.has_failed writer.new ≡ false → W.waiting writer.new ≡ [] }
    ensures taken { TakesAtMost (most_bundle_bytes + 1) (R.left reader.old) (R.left reader.new) }
{
    match read_input(alloc, reader) {
        Ok(input) => match answer(alloc, &input) {
            Ok(reply) => tell(writer, &reply.text, reply.status),
            Err(_) => tell(writer, b"unify: memory\n", 3),
        },
        Err(ReadFault::Read) => tell(writer, b"unify: read\n", 3),
        Err(ReadFault::Memory) => tell(writer, b"unify: memory\n", 3),
    }
}
