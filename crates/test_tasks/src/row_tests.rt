//! What `taskrows` prints of each end of a row and for each argument, and a writer that fails.
//! Of what is only tested (docs/PROOFS.md): Programs.

use rows_fixtures::counters::Counts;
use rows_fixtures::limited::Limited;
use rows_fixtures::outcome::{Missing, Outcome};
use rows_fixtures::report::answer;
use rows_fixtures::row::Row;
use std::alloc::{AllocError, Global};
use std::io;

// The status, where the first row disagrees, the second has no memory, the third no second thread, and the others agree, with the counters 1 to 4.
fn status_of<W: io::Write, E: io::Write>(
    alloc: Global,
    out: &mut W,
    err: &mut E,
) -> Result<u8, AllocError> {
    let run = |row: Row| -> Result<Outcome, Missing> {
        let counts = Counts(1, 2, 3, 4);
        match row {
            Row::WakeDuringRun => Ok(Outcome::of(counts, false, counts)),
            Row::CancelDuringRun => Err(Missing::Memory),
            Row::WakeAndCancel => Err(Missing::Thread),
            _ => Ok(Outcome::of(counts, true, counts)),
        }
    };
    let words = vec![in alloc; String::from_str(alloc, "threads")?]?;
    Ok(answer(words.as_slice(), &run, out, err))
}

const PRINTED: &str = "16 wake_during_run 1,2,3,4 FAILED
27 cancel_during_run NO MEMORY
29 wake_and_cancel NO THREAD
30 cancel_and_wake 1,2,3,4
31 detach_during_run 1,2,3,4
32 drop_during_run 1,2,3,4
33 poll_during_run 1,2,3,4
rows ok: 4 of 7
";

#[test]
fn each_end_of_a_row_is_told(rt: HostRuntime) {
    let mut out = Vec::new(rt.alloc());
    let mut err = Vec::new(rt.alloc());
    let status = status_of(rt.alloc(), &mut out, &mut err).expect(&rt, "refused");
    assert!(rt; status == 1 && out.as_slice() == PRINTED.as_bytes() && err.is_empty());
}

const FULL: &[u8] = b"taskrows: no storage space\n";

// Whether the status is 1, and the failure told, where `out` takes so many bytes and then fails, and may fail to flush.
fn fails(alloc: Global, left: usize, flushes: bool) -> Result<bool, AllocError> {
    let mut limited = Limited { left, flushes };
    let mut err = Vec::new(alloc);
    let status = status_of(alloc, &mut limited, &mut err)?;
    Ok(status == 1 && err.as_slice() == FULL)
}

#[test]
fn a_writer_that_fails_gives_status_one(rt: HostRuntime) {
    let whole = PRINTED.len();
    for limit in [(0, true), (40, true), (whole - 1, true), (whole, false)] {
        let (left, flushes) = limit;
        let is_told = fails(rt.alloc(), left, flushes).expect(&rt, "refused");
        assert!(rt; is_told, "{limit:?}");
    }
}

const USAGE: &str = "usage: taskrows [threads | all | --help]\n";

const HELP: &str = "usage: taskrows [threads | all | --help]

Runs worked rows, and prints a line for each. Without arguments these are the rows that need no threads.

    threads    the rows that need threads
    all        both, in order of number
    --help     this text
";

// Whether the status is this, `out` ends so, and `err` is this, where this is the argument, if any, and each row agrees.
fn is_answered(
    alloc: Global,
    word: Option<&str>,
    status: u8,
    end: &str,
    told: &str,
) -> Result<bool, AllocError> {
    let run = |_row: Row| -> Result<Outcome, Missing> {
        let counts = Counts(1, 2, 3, 4);
        Ok(Outcome::of(counts, true, counts))
    };
    let mut words = Vec::new(alloc);
    if let Some(word) = word {
        words.push(String::from_str(alloc, word)?)?;
    }
    let mut out = Vec::new(alloc);
    let mut err = Vec::new(alloc);
    let answered = answer(words.as_slice(), &run, &mut out, &mut err);
    let is_out = out.as_slice().ends_with(end.as_bytes()) && out.is_empty() == end.is_empty();
    Ok(answered == status && is_out && err.as_slice() == told.as_bytes())
}

#[test]
fn the_arguments_of_the_usage_are_taken_and_no_other(rt: HostRuntime) {
    let cases = [
        (None, 0, "40 priority_full 1,2,3,4\nrows ok: 31 of 31\n", ""),
        (
            Some("threads"),
            0,
            "33 poll_during_run 1,2,3,4\nrows ok: 7 of 7\n",
            "",
        ),
        (
            Some("all"),
            0,
            "40 priority_full 1,2,3,4\nrows ok: 38 of 38\n",
            "",
        ),
        (Some("--help"), 0, HELP, ""),
        (Some("rows"), 2, "", USAGE),
    ];
    for (word, status, end, told) in cases {
        let is_answered = is_answered(rt.alloc(), word, status, end, told).expect(&rt, "refused");
        assert!(rt; is_answered, "{word:?}");
    }
}
