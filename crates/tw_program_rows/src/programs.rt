//! What the programs write.

ghost use Rattle.std.specs.Prelude.{◌≡◌, false};

use crate::devices::{AMPLE, Endless, ShortPage, Tape};
use crate::texts::{DISAGREE_LOG, DISAGREE_UPGRADED};
use std::alloc::Global;
use tw_commands::{Cause, Report, Status, Untold, check_io, seq_io, upgrade_io};
use tw_rows::reports::TO_20;
use tw_rows::texts::{ALONE, DISAGREE};

/// A program, with its options.
#[derive(Clone, Copy, Debug)]
enum Asked {
    Check,
    /// With the log, and no checkpoints.
    Seq { stop: u16 },
    Upgrade,
}

fn run(
    alloc: Global,
    asked: Asked,
    tape: &mut Tape<'_>,
    page: &mut ShortPage,
) -> Result<Status, Cause>
    requires source { tape.old.failed ≡ false }
    requires sink { page.old.failed ≡ false }
{
    match asked {
        Asked::Check => check_io(alloc, tape, page),
        Asked::Seq { stop } => {
            let stop = u64::from(stop);
            let logged = Report {
                stop,
                log: true,
                ..TO_20
            };
            seq_io(alloc, tape, page, logged, &Untold)
        }
        Asked::Upgrade => upgrade_io(alloc, tape, page),
    }
}

/// Whether a program ends so on a tape, with just this on a page that takes `room` bytes, `most` in one call.
/// It is run once more where memory was refused and nothing stands on the page.
fn answers(
    alloc: Global,
    asked: Asked,
    tape: Tape<'_>,
    room: usize,
    most: usize,
    expected: Result<Status, Cause>,
    written: &[u8],
) -> bool
    requires { tape.failed ≡ false }
{
    for _ in 0..2 {
        let Ok(mut page) = ShortPage::new(alloc, room, most) else {
            continue;
        };
        let mut source = tape;
        match run(alloc, asked, &mut source, &mut page) {
            Err(Cause::Memory) if page.bytes().is_empty() => {}
            ended => return ended == expected && page.bytes() == written,
        }
    }
    false
}

/// Whether a program is ended by a page that takes no more than `room` bytes of a text, with just this on it.
fn fails(
    alloc: Global,
    asked: Asked,
    text: &str,
    room: usize,
    most: usize,
    written: &[u8],
) -> bool {
    let tape = Tape::new(text.as_bytes(), usize::MAX);
    answers(alloc, asked, tape, room, most, Err(Cause::Device), written)
}

const ACCEPTED: &str = "accepted nodes 3 links 3 paths 4 scenario 0\n";

/// Whether each shorter page has a prefix of what the program writes on DISAGREE, and tells that
/// it failed.
fn fails_with_a_prefix(alloc: Global, asked: Asked, whole: &[u8], most: usize) -> bool {
    for room in 0..whole.len() {
        if !fails(alloc, asked, DISAGREE, room, most, &whole[..room]) {
            return false;
        }
    }
    true
}

/// What each program writes on DISAGREE.
const WRITTEN: [(Asked, &str); 3] = [
    (Asked::Seq { stop: 20 }, DISAGREE_LOG),
    (Asked::Check, ACCEPTED),
    (Asked::Upgrade, DISAGREE_UPGRADED),
];

#[test]
fn a_sink_that_fails_has_a_prefix(rt: HostRuntime) {
    for (asked, text) in &WRITTEN {
        for most in &[AMPLE, 1] {
            assert!(rt;
                fails_with_a_prefix(rt.alloc(), *asked, text.as_bytes(), *most),
                "{asked:?}"
            );
        }
    }
}

#[test]
fn the_first_line_stands_where_a_sink_takes_thirteen_bytes(rt: HostRuntime) {
    let asked = Asked::Seq { stop: 10 };
    assert!(rt; fails(rt.alloc(), asked, ALONE, 13, AMPLE, b"spp-report 1\n"));
}

/// Whether a program writes just this on DISAGREE, a byte at a time.
fn writes_bytes(alloc: Global, asked: Asked, written: &[u8]) -> bool {
    let tape = Tape::new(DISAGREE.as_bytes(), usize::MAX);
    answers(alloc, asked, tape, AMPLE, 1, Ok(Status::Done), written)
}

#[test]
fn a_sink_may_take_a_byte_at_a_time(rt: HostRuntime) {
    for (asked, text) in &WRITTEN {
        assert!(rt;
            writes_bytes(rt.alloc(), *asked, text.as_bytes()),
            "{asked:?}"
        );
    }
}

/// Whether a program that can read so many bytes of DISAGREE is ended by its device, and writes nothing.
fn writes_nothing(alloc: Global, asked: Asked, left: usize) -> bool {
    let tape = Tape::new(DISAGREE.as_bytes(), left);
    answers(alloc, asked, tape, AMPLE, AMPLE, Err(Cause::Device), &[])
}

#[test]
fn a_source_that_fails_leaves_nothing_written(rt: HostRuntime) {
    for (asked, _) in &WRITTEN {
        for left in &[0, 1, 20] {
            assert!(rt; writes_nothing(rt.alloc(), *asked, *left));
        }
    }
}

/// Whether `check` refuses line ends without end, having read the most that it reads. It is run once more
/// where memory was refused.
fn refuses_endless(alloc: Global) -> bool {
    for _ in 0..2 {
        let Ok(mut page) = ShortPage::new(alloc, AMPLE, AMPLE) else {
            continue;
        };
        let mut source = Endless::new();
        match check_io(alloc, &mut source, &mut page) {
            Err(Cause::Memory) => {}
            ended => return ended == Ok(Status::Refused) && has_read_all(&source, &page),
        }
    }
    false
}

/// Whether the most bytes were read of line ends without end, and the page has the answer to them.
fn has_read_all(source: &Endless, page: &ShortPage) -> bool {
    source.given() == 67_108_864 && page.bytes() == b"refused line 1 X2 Header\n".as_slice()
}

#[test]
fn line_ends_without_end_are_refused(rt: HostRuntime) {
    assert!(rt; refuses_endless(rt.alloc()));
}

/// Whether a cause is shown as this text, once more where memory was refused.
fn is_shown(alloc: Global, cause: Cause, text: &str) -> bool {
    let shown = match format!(in alloc; "{cause}") {
        Err(_) => format!(in alloc; "{cause}"),
        shown => shown,
    };
    matches!(shown, Ok(shown) if shown.as_str() == text)
}

/// Each cause to stop, and its two words.
const CAUSES: [(Cause, &str); 4] = [
    (Cause::Memory, "stopped memory"),
    (Cause::CounterFull, "stopped counter"),
    (Cause::NoThread, "stopped thread"),
    (Cause::Device, "stopped device"),
];

#[test]
fn each_cause_to_stop_is_shown_in_two_words(rt: HostRuntime) {
    for (cause, text) in &CAUSES {
        assert!(rt; is_shown(rt.alloc(), *cause, text));
    }
}
