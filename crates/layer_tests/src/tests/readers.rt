//! Of idtext, logindefs and mtree_inv: what no command shows. Their other examples are bundles and
//! texts of `examples/worked`.

ghost use Rattle.std.specs.Prelude.{◌≡◌, false};

use idtext::{ByteString, ReadError, TextCode, TextFault, push_escaped, push_number};
use logindefs::IdRange;
use mtree_inv::{Reader, read_inventory};
use std::alloc::{AllocError, Global};
use std::process::Abort;
use std::test::Fail;

#[test]
fn range_lengths(rt: HostRuntime) {
    assert_eq!(rt; IdRange::new(0, 4294967295).len(), 4294967296);
    assert_eq!(rt; IdRange::new(5, 9).len(), 5);
    assert_eq!(rt; IdRange::new(3, 2).len(), 0);
}

// What a text was refused for, unless memory was.
fn fault_of(refusal: Option<ReadError>) -> Result<Option<TextFault>, AllocError> {
    match refusal {
        Some(ReadError::Memory) => Err(AllocError),
        Some(ReadError::Fault(fault)) => Ok(Some(fault)),
        None => Ok(None),
    }
}

fn fault(code: TextCode, line: u64) -> Option<TextFault> {
    Some(TextFault { code, line })
}

// Commands ask for 16,777,216 files at most, which no text here has.
#[test]
fn too_many_entries(rt: HostRuntime) -> Result<(), Fail> {
    let text = b"./f uid=1 gid=1\n./g uid=1 gid=1\n";
    let refusal = read_inventory(rt.alloc(), text, 1).err();
    assert_eq!(rt; fault_of(refusal)?, fault(TextCode::TooManyEntries, 2));
    Ok(())
}

// The user of the next file.
fn next_uid(reader: &mut Reader) -> Option<u32> {
    reader.next_entry().map(|file| file.uid)
}

// Whether a reader that has refused a text gives that answer again, whatever comes.
fn repeats(reader: &mut Reader, refused: Result<(), ReadError>) -> bool
    requires { reader.old.is_finished ≡ false }
{
    let fed = reader.feed(b"./g uid=1 gid=2\n");
    let finished = reader.finish();
    fed == refused && finished == refused && !reader.is_finished()
}

// The next seven are to be run with each growth refused in turn, too.

// A reader answers its refusal again, whatever comes, and hands out the files before it.
#[test]
fn refused_reader_keeps_its_fault(rt: HostRuntime) -> Result<(), Fail> {
    let mut reader = Reader::new(rt.alloc(), 9);
    let refused = reader.feed(b"./f uid=1 gid=2\n..\n");
    assert!(rt; repeats(&mut reader, refused));
    let first = next_uid(&mut reader);
    assert_eq!(rt; next_uid(&mut reader), None);
    assert_eq!(rt; fault_of(refused.err())?, fault(TextCode::DotDotAbove, 2));
    assert_eq!(rt; first, Some(1));
    Ok(())
}

// A text, and the answer to it: its fault, and the user of each file.
type Answer = (&'static [u8], Option<TextFault>, &'static [u32]);

// Whether a reader has this answer.
fn answers(reader: &mut Reader, answer: Answer) -> Result<bool, AllocError>
    requires { reader.old.is_finished ≡ false }
{
    let (text, fault, uids) = answer;
    let refusal = match reader.feed(text) {
        Ok(()) => reader.finish().err(),
        Err(refusal) => Some(refusal),
    };
    if fault_of(refusal)? != fault {
        return Ok(false);
    }
    for uid in uids {
        if next_uid(reader) != Some(*uid) {
            return Ok(false);
        }
    }
    Ok(next_uid(reader).is_none())
}

// How a reader begins a text that is not its first, and how many files it takes of it at most.
#[derive(Clone, Copy)]
enum Begin {
    Restart(u32),
    Rewind(u32),
}

type Step = (Begin, Answer);

fn answers_next(reader: &mut Reader, (begin, answer): Step) -> Result<bool, AllocError> {
    match begin {
        Begin::Restart(most) => reader.restart(most),
        Begin::Rewind(most) => reader.rewind(most),
    }
    answers(reader, answer)
}

// The place of the first of these steps that a reader answers in another way.
fn wrong_step(reader: &mut Reader, steps: &[Step]) -> Result<Option<usize>, AllocError> {
    for (i, step) in steps.iter().enumerate() {
        if !answers_next(reader, *step)? {
            return Ok(Some(i));
        }
    }
    Ok(None)
}

// A reader that keeps hashes has this answer to its first text, and then that of each step.
fn check_steps(rt: &impl Abort, alloc: Global, first: Answer, steps: &[Step]) -> Result<(), Fail> {
    let mut reader = Reader::new(alloc, 9);
    reader.keep_hashes();
    assert!(rt; answers(&mut reader, first)?);
    assert_eq!(rt; wrong_step(&mut reader, steps)?, None);
    Ok(())
}

const THREE_FILES: &[u8] = b"./f uid=1 gid=9\n./g uid=2 gid=9\n./h uid=3 gid=9\n";

const THREE: Answer = (THREE_FILES, None, &[1, 2, 3]);

const OWNERS_DIFFER_ON_3: TextFault = TextFault {
    code: TextCode::OwnersDiffer,
    line: 3,
};

const OWNERS_DIFFER_ON_4: TextFault = TextFault {
    code: TextCode::OwnersDiffer,
    line: 4,
};

// What comes where the three files are expected: they, in another order, fewer, one more, other
// ones, one twice with one owner, and one twice with two, as the third and as the fourth.
const SECOND_TEXTS: [Answer; 8] = [
    THREE,
    (
        b"./f uid=1 gid=9\n./h uid=3 gid=9\n./g uid=2 gid=9\n",
        None,
        &[1, 3, 2],
    ),
    (b"./f uid=1 gid=9\n", None, &[1]),
    (
        b"./f uid=1 gid=9\n./g uid=2 gid=9\n./h uid=3 gid=9\n./i uid=4 gid=9\n",
        None,
        &[1, 2, 3, 4],
    ),
    (b"./k uid=5 gid=9\n./l uid=6 gid=9\n", None, &[5, 6]),
    (
        b"./f uid=1 gid=9\n./f uid=1 gid=9\n./g uid=2 gid=9\n",
        None,
        &[1, 2],
    ),
    (
        b"./f uid=1 gid=9\n./g uid=2 gid=9\n./f uid=4 gid=9\n",
        Some(OWNERS_DIFFER_ON_3),
        &[1, 2],
    ),
    (
        b"./f uid=1 gid=9\n./g uid=2 gid=9\n./h uid=3 gid=9\n./g uid=4 gid=9\n",
        Some(OWNERS_DIFFER_ON_4),
        &[1, 2, 3],
    ),
];

#[test]
fn second_text_may_be_another(rt: HostRuntime) -> Result<(), Fail> {
    for second in SECOND_TEXTS {
        check_steps(&rt, rt.alloc(), THREE, &[(Begin::Rewind(9), second)])?;
    }
    Ok(())
}

const TWO: Answer = (b"./f uid=4 gid=9\n./x uid=5 gid=9\n", None, &[4, 5]);

// Two texts come twice, the second then once more. A reader that is rewound again is a new one.
#[test]
fn texts_come_twice(rt: HostRuntime) -> Result<(), Fail> {
    let steps = [
        (Begin::Restart(9), TWO),
        (Begin::Rewind(9), THREE),
        (Begin::Restart(9), TWO),
        (Begin::Restart(9), TWO),
        (Begin::Rewind(9), TWO),
    ];
    check_steps(&rt, rt.alloc(), THREE, &steps)
}

// The table is full where its last file is an expected one.
#[test]
fn second_text_fills_the_table(rt: HostRuntime) -> Result<(), Fail> {
    let known_again = b"./f uid=4 gid=9\n./x uid=5 gid=9\n./f uid=4 gid=9\n";
    let refused = fault(TextCode::TooManyEntries, 3);
    let steps = [
        (Begin::Restart(9), THREE),
        (Begin::Rewind(2), (known_again, None, &[4, 5])),
        (Begin::Restart(2), (THREE_FILES, refused, &[1, 2])),
    ];
    check_steps(&rt, rt.alloc(), TWO, &steps)
}

// Whether a push to the text `a` made it so long, or answered the error and left it as it was.
fn is_all_or_nothing(pushed: Result<(), AllocError>, text: &[u8], length: usize) -> bool {
    match pushed {
        Ok(()) => text.len() == length,
        Err(_) => text == b"a".as_slice(),
    }
}

#[test]
fn each_growth_refused_number(rt: HostRuntime) -> Result<(), Fail> {
    let mut text = Vec::from_slice(rt.alloc(), b"a")?;
    let pushed = push_number(&mut text, 12345678);
    assert!(rt; is_all_or_nothing(pushed, &text, 9));
    Ok(())
}

#[test]
fn each_growth_refused_escapes(rt: HostRuntime) -> Result<(), Fail> {
    let mut text = Vec::from_slice(rt.alloc(), b"a")?;
    let pushed = push_escaped(&mut text, &[b' '; 100]);
    assert!(rt; is_all_or_nothing(pushed, &text, 401));
    Ok(())
}

#[test]
fn each_growth_refused_line(rt: HostRuntime) -> Result<(), Fail> {
    let mut text = ByteString::copy_of(rt.alloc(), b"a")?;
    let pushed = text.push_line(&[b' '; 100]);
    assert!(rt; is_all_or_nothing(pushed, text.bytes(), 102));
    Ok(())
}
