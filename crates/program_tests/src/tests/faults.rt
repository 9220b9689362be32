// Each call of the shelf and of the sink refused in turn, for every command: the fault's status, and nothing written or
// a part of the text.
use super::frees::{ONE_OF_THREE, ONE_WEEK, THREE_WEEKS};
use super::logs::{SPLIT, TURN, TWOS};
use super::plans::THREE_OF_FIVE;
use super::staffs::{NONE_TO_THREE, TWO_OF_FOUR};
use super::{NINE_WEEKS, NINE_WEEKS_ROSTER, TWO_DAYS, outcome_of, ran, shelf_of, words_of};
use clean_words::NoGate;
use commands::verify;
use rwsp_run::{Answer, JobAnswer, Outcome};
use std::alloc::{AllocError, Global};
use std::test::Fail;
use std::thread::Threads;
use test_helpers::MemorySink;

// Command lines, with the texts of the files that they read: F, and G where there is a second one. A file without a
// text isn't there, and isn't looked for.
const RUNS: [(&str, &str, &str, u8); 22] = [
    ("show F", TWO_DAYS, "", 0),
    ("plan F", TWO_DAYS, "", 0),
    ("plan F", TWOS, "", 1),
    ("plan F --budget 1", THREE_OF_FIVE, "", 4),
    ("verify F G", TWO_DAYS, "D -\n", 0),
    ("verify F G", TWO_DAYS, "D D\n", 5),
    ("verify F G", "2\n", "", 3),
    ("check F G", TWOS, SPLIT, 0),
    ("check F G --workers 3", TWOS, SPLIT, 0),
    ("reduce F G", TWOS, TURN, 0),
    ("reduce F G", "2\n", "", 3),
    ("trial 0 1", "", "", 0),
    ("crew F G 2024-02-28 3", TWO_DAYS, "D -\n", 0),
    ("crew F G 9999-12-31 1", "", "", 3),
    ("staff F 6 6", TWO_OF_FOUR, "", 0),
    ("check-staff F G", TWOS, NONE_TO_THREE, 0),
    ("check-staff F G", "2\n", "", 3),
    ("best F", ONE_WEEK, "", 0),
    ("best F", TWO_DAYS, "", 3),
    ("check-free F G", THREE_WEEKS, ONE_OF_THREE, 0),
    ("check-free F G", TWO_DAYS, "", 3),
    ("show", "", "", 2),
];

// How many calls a shelf that gives seven bytes at a time takes for a file: one that chooses it, one for each seven
// bytes or fewer, and one at its end.
fn calls_for(text: &str) -> u64 {
    if text.is_empty() {
        0
    } else {
        text.len().div_ceil(7) as u64 + 2
    }
}

// Whether each call of the shelf that is refused gives the fault's status and writes nothing. Each file is read once and
// whole, so there are no more calls than those of both.
fn shelf_faults_end<R: Threads + Sync>(
    rt: &R,
    alloc: Global,
    line: &str,
    problem: &str,
    second: &str,
    status: u8,
) -> Result<bool, Fail> {
    let files = [("F", problem), ("G", second)];
    let calls = calls_for(problem).saturating_add(calls_for(second));
    for call in 1..calls.saturating_add(1) {
        let refused = ran(rt, alloc, line, &files, call, 0)?;
        if refused.status != 6 || !refused.text.is_empty() {
            return Ok(false);
        }
    }
    let behind = ran(rt, alloc, line, &files, calls.saturating_add(1), 0)?;
    Ok(behind.status == status)
}

#[test]
fn calls_of_the_shelf(rt: HostRuntime) -> Result<(), Fail> {
    for (line, problem, second, status) in &RUNS {
        assert!(rt;
            shelf_faults_end(&rt, rt.alloc(), line, problem, second, *status)?,
            "{line}"
        );
    }
    Ok(())
}

// Whether each call of the sink that is refused gives the fault's status, and what was put before it is the front of
// the text. The sink takes forty bytes at a time.
fn sink_faults_end<R: Threads + Sync>(
    rt: &R,
    alloc: Global,
    line: &str,
    files: &[(&str, &str)],
    status: u8,
) -> Result<bool, Fail> {
    let whole = ran(rt, alloc, line, files, 0, 0)?;
    Ok(
        whole.status == status
            && fronts_are_put(rt, alloc, line, files, whole.text.as_bytes(), status)?,
    )
}

// The same for a run that writes this text.
fn fronts_are_put<R: Threads + Sync>(
    rt: &R,
    alloc: Global,
    line: &str,
    files: &[(&str, &str)],
    text: &[u8],
    status: u8,
) -> Result<bool, Fail> {
    let mut written = Vec::new(alloc);
    let mut call = 1u64;
    for piece in text.chunks(40) {
        if !is_ended(rt, alloc, line, files, call, 7, &written)? {
            return Ok(false);
        }
        written.extend_from_slice(piece)?;
        call = call.saturating_add(1);
    }
    is_ended(rt, alloc, line, files, call, status, &written)
}

// Whether the run ends with this status and has written these bytes, where this call of the sink is refused.
fn is_ended<R: Threads + Sync>(
    rt: &R,
    alloc: Global,
    line: &str,
    files: &[(&str, &str)],
    call: u64,
    status: u8,
    written: &[u8],
) -> Result<bool, Fail> {
    let ended = ran(rt, alloc, line, files, 0, call)?;
    Ok(ended.status == status && ended.text.as_bytes() == written)
}

#[test]
fn calls_of_the_sink(rt: HostRuntime) -> Result<(), Fail> {
    for (line, problem, second, status) in &RUNS {
        let files = [("F", *problem), ("G", *second)];
        assert!(rt;
            sink_faults_end(&rt, rt.alloc(), line, &files, *status)?,
            "{line}"
        );
    }
    Ok(())
}

// How much of `meets` a run has written.
#[derive(Clone, Copy, Debug, PartialEq, Eq)]
enum Meets {
    Whole,
    Part,
    NotSaid,
}

// Whether the answer is that a roster meets every rule.
fn says_meets(answer: &Answer) -> bool {
    match answer {
        Answer::Job(job) => match job {
            JobAnswer::Verify(verified) => matches!(verified, verify::Answer::Meets),
            _ => false,
        },
        _ => false,
    }
}

fn meets_in(outcome: &Outcome) -> Meets {
    match outcome {
        Outcome::Done(answer) if says_meets(answer) => Meets::Whole,
        Outcome::WriteFault(answer) if says_meets(answer) => Meets::Part,
        _ => Meets::NotSaid,
    }
}

// A roster is judged that meets all rules, and the answer is written into the sink.
fn meets_into<R: Threads + Sync>(
    rt: &R,
    alloc: Global,
    sink: &mut MemorySink,
) -> Result<Meets, AllocError> {
    let words = words_of(alloc, &["verify", "F", "G"])?;
    let files = [("F", NINE_WEEKS), ("G", NINE_WEEKS_ROSTER)];
    let mut shelf = shelf_of(alloc, &files, 100, &[])?;
    let mut told = MemorySink::new(alloc, 0, 1, Vec::new(alloc))?;
    let outcome = outcome_of(rt, alloc, &words, &mut shelf, sink, &mut told, &NoGate);
    let meets = meets_in(&outcome);
    drop(outcome);
    Ok(meets)
}

// A write that fails keeps the answer, and has written a part of its text: as much as there is room for, or as was put
// before the call that is refused. The sink takes a byte at a time.
#[test]
fn answers_of_failed_writes(rt: HostRuntime) -> Result<(), Fail> {
    let alloc = rt.alloc();
    for (room, failing, written, meets) in [
        (0usize, 0u64, "", Meets::Part),
        (1, 0, "m", Meets::Part),
        (2, 0, "me", Meets::Part),
        (3, 0, "mee", Meets::Part),
        (4, 0, "meet", Meets::Part),
        (5, 0, "meets", Meets::Part),
        (6, 0, "meets\n", Meets::Whole),
        (6, 4, "mee", Meets::Part),
    ] {
        let mut sink = MemorySink::new(alloc, room, 1, vec![in alloc; failing]?)?;
        assert_eq!(rt; meets_into(&rt, alloc, &mut sink)?, meets);
        assert_eq!(rt; sink.bytes(), written.as_bytes());
    }
    Ok(())
}
