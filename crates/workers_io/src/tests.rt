//! Workers in memory whose replies are lost, cut, late, doubled and replaced; and workers that are child processes.
ghost use Rattle.std.specs.Prelude.{◌≡◌, ℕ, List};

use super::*;
use poly_io::{MemSink, Sink, WriteFault, write_all, write_count};
use poly_model::Count;
use std::fs::{self, File};
use std::path::Path;
use std::process::Processes;
use std::rt::Files;
use std::test::Fail;
use std::time::Clock;
use work_core::{JobCall, JobStop};

/// A job call that writes the text back, and takes `!` for no job.
#[derive(Drop)]
struct Echo;

impl JobCall for Echo {
    ghost allows = { λ text reply. reply ≡ text };

    ghost is_bad = { λ text place. Unit {0} };

    fn call<S: Sink>(&mut self, text: &[u8], out: &mut S) -> Result<Count, JobStop> {
        if text == b"!".as_slice() {
            return Err(JobStop::BadJob { place: 1 });
        }
        match write_all(out, text) {
            Ok(()) => Ok(Count {
                rows: 0,
                jobs: 0,
                bases: 0,
            }),
            Err(WriteFault) => Err(JobStop::WriteFault),
        }
    }
}

/// Fates, the starts that they are for, and what is seen: the attempts that are refused, and then of each collect what it
/// gives, with the number of attempts that are out after it; how many faults there were then.
#[derive(Clone, Copy)]
struct Row {
    name: &'static str,
    fates: &'static [Fate],
    starts: &'static [(u64, &'static [u8])],
    seen: &'static [u8],
    faults: u64,
}

const TWO: &[(u64, &[u8])] = &[(1, b"ab"), (2, b"cd")];

const ROWS: [Row; 12] = [
    Row {
        name: "each reply comes",
        fates: &[],
        starts: TWO,
        seen: b"1=ab (1) 2=cd (0) ",
        faults: 0,
    },
    Row {
        name: "kept",
        fates: &[Fate::Keep, Fate::Lose],
        starts: TWO,
        seen: b"1=ab (1) 2 broken (0) ",
        faults: 1,
    },
    Row {
        name: "lost",
        fates: &[Fate::Lose],
        starts: TWO,
        seen: b"1 broken (1) 2=cd (0) ",
        faults: 1,
    },
    Row {
        name: "cut",
        fates: &[Fate::Cut(1), Fate::Cut(9)],
        starts: TWO,
        seen: b"1=a (1) 2=cd (0) ",
        faults: 0,
    },
    Row {
        name: "twice",
        fates: &[Fate::Twice],
        starts: TWO,
        seen: b"1=ab (1) 1=ab (1) 2=cd (0) ",
        faults: 0,
    },
    Row {
        name: "late",
        fates: &[Fate::Late],
        starts: &[(1, b"ab"), (2, b"cd"), (3, b"ef")],
        seen: b"2=cd (2) 1=ab (1) 3=ef (0) ",
        faults: 0,
    },
    Row {
        name: "late, with none behind it",
        fates: &[Fate::Keep, Fate::Late],
        starts: TWO,
        seen: b"1=ab (1) 2=cd (0) ",
        faults: 0,
    },
    Row {
        name: "replaced",
        fates: &[Fate::Replace(1), Fate::Replace(2)],
        starts: TWO,
        seen: b"1=other (1) 2= (0) ",
        faults: 0,
    },
    Row {
        name: "refused",
        fates: &[Fate::Refuse],
        starts: TWO,
        seen: b"1 refused 2=cd (0) ",
        faults: 1,
    },
    Row {
        name: "no job",
        fates: &[Fate::Twice],
        starts: &[(1, b"!")],
        seen: b"1 broken (0) ",
        faults: 1,
    },
    Row {
        name: "the number of an attempt that is out",
        fates: &[],
        starts: &[(1, b"ab"), (2, b"cd"), (1, b"ef")],
        seen: b"2=cd (2) 1=ef (0) ",
        faults: 0,
    },
    Row {
        name: "refused with the number of an attempt that is out",
        fates: &[Fate::Keep, Fate::Refuse],
        starts: &[(1, b"ab"), (1, b"ef")],
        seen: b"1 refused 1 broken (0) ",
        faults: 2,
    },
];

/// What may come in a reply's place.
const OTHERS: &[&[u8]] = &[b"first", b"other"];

/// Writes what a collect gave.
fn write_collected<S: Sink>(collected: &Collected, out: &mut S) -> Result<(), WriteFault> {
    match collected {
        Collected::Reply { attempt, bytes } => {
            write_count(*attempt, out)?;
            write_all(out, b"=")?;
            write_all(out, bytes.as_slice())
        }
        Collected::Broken { attempt } => {
            write_count(*attempt, out)?;
            write_all(out, b" broken")
        }
    }
}

/// Writes what is seen of the starts, and then of collects until no attempt is out.
fn play<S: Sink>(
    workers: &mut MemWorkers<Echo>,
    starts: &[(u64, &[u8])],
    out: &mut S,
) -> Result<(), Fail> {
    for (attempt, text) in starts {
        if workers.start(*attempt, text).is_err() {
            write_count(*attempt, out)?;
            write_all(out, b" refused ")?;
        }
    }
    for _ in 0..10 {
        if workers.out().is_empty() {
            return Ok(());
        }
        let collected = workers.collect()?;
        write_collected(&collected, out)?;
        write_all(out, b" (")?;
        write_count(workers.out().len() as u64, out)?;
        write_all(out, b") ")?;
    }
    Ok(())
}

#[test]
fn gives_what_the_fates_say(rt: HostRuntime) -> Result<(), Fail> {
    let alloc = rt.alloc();
    for row in ROWS {
        let mut workers = MemWorkers::new(alloc, Echo, row.fates, OTHERS);
        let mut out = MemSink::new(alloc, &[]);
        play(&mut workers, row.starts, &mut out)?;
        let found = (out.written(), workers.faults(), workers.starts());
        let want = (row.seen, row.faults, row.starts.len() as u64);
        assert_eq!(rt; found, want, "{}", row.name);
    }
    Ok(())
}

/// Words for the shell. The first line of a child's input says what it does: it waits for a file and says so, it makes
/// the file, or it tells on its standard error that it ends.
const MEETS: &[&str] = &[
    "-c",
    "read name; if [ \"$name\" = wait ]; then i=0; while [ $i -lt 2000000 ]; do \
        if [ -e tests_of_workers_io.made ]; then echo met; exit 3; fi; i=$((i+1)); done; \
        elif [ \"$name\" = make ]; then : > tests_of_workers_io.made; \
        elif [ \"$name\" = tell ]; then echo ended >&2; fi",
];

/// Starts children of the shell on these words, as attempts 1 and 2.
fn start_two<R: Processes + Files<File = File> + Clock>(
    workers: &mut ChildWorkers<R>,
    words: [&[u8]; 2],
    out: &mut MemSink,
) -> Result<(), Fail> {
    for (attempt, word) in [(1, words[0]), (2, words[1])] {
        if workers.start(attempt, word).is_err() {
            write_all(out, b"refused ")?;
        }
    }
    Ok(())
}

/// Writes what the workers give next, where an attempt is out.
fn collect_one<R: Processes + Files<File = File> + Clock>(
    workers: &mut ChildWorkers<R>,
    out: &mut MemSink,
) -> Result<(), Fail> {
    if workers.out().is_empty() {
        return Ok(());
    }
    let collected = workers.collect()?;
    write_collected(&collected, out)?;
    write_all(out, b" ")?;
    Ok(())
}

#[test]
fn children_run_beside_each_other(rt: HostRuntime) -> Result<(), Fail> {
    let alloc = rt.alloc();
    let _ = fs::remove_file(&rt, "tests_of_workers_io.made");
    let shell = Path::new("/bin/sh").to_path_buf(alloc)?;
    let folder = std::env::temp_dir(&rt)?;
    let mut workers = ChildWorkers::new(&rt, alloc, shell, MEETS, folder);
    let mut seen = MemSink::new(alloc, &[]);
    start_two(&mut workers, [b"wait\n", b"make\n"], &mut seen)?;
    collect_one(&mut workers, &mut seen)?;
    collect_one(&mut workers, &mut seen)?;
    fs::remove_file(&rt, "tests_of_workers_io.made")?;
    let found = (is_met(seen.written()), workers.faults());
    assert_eq!(rt; found, (true, 0));
    Ok(())
}

/// Whether both gave what they were to; they end nearly at once, and either may come first.
fn is_met(seen: &[u8]) -> bool {
    seen == b"1=met\n 2= ".as_slice() || seen == b"2= 1=met\n ".as_slice()
}

// What the first one waits for is there only once the second one was collected.
#[test]
fn one_is_collected_while_another_works(rt: HostRuntime) -> Result<(), Fail> {
    let alloc = rt.alloc();
    let _ = fs::remove_file(&rt, "tests_of_workers_io.made");
    let shell = Path::new("/bin/sh").to_path_buf(alloc)?;
    let folder = std::env::temp_dir(&rt)?;
    let mut workers = ChildWorkers::new(&rt, alloc, shell, MEETS, folder);
    let mut seen = MemSink::new(alloc, &[]);
    start_two(&mut workers, [b"wait\n", b"tell\n"], &mut seen)?;
    collect_one(&mut workers, &mut seen)?;
    File::create(&rt, "tests_of_workers_io.made")?;
    collect_one(&mut workers, &mut seen)?;
    fs::remove_file(&rt, "tests_of_workers_io.made")?;
    assert_eq!(rt; seen.written(), b"2= 1=met\n ".as_slice());
    Ok(())
}

/// Words for the shell: every second child of these ends at once, and takes nothing; the others give back what they get.
const TURNS: &[&str] = &[
    "-c",
    "if [ -e tests_of_workers_io.turn ]; then rm tests_of_workers_io.turn; exit; fi; \
        : > tests_of_workers_io.turn; exec cat",
];

/// A program and its words, whether it is started on a text of so many bytes, how many bytes it gives back, and how many
/// faults there were.
const PROGRAMS: [(&str, &[&str], usize, bool, usize, u64); 5] = [
    ("/bin/cat", &[], 0, true, 0, 0),
    ("/bin/cat", &[], 50000, true, 50000, 0),
    ("/bin/true", &[], 1000000, false, 0, 1),
    ("/bin/no such program", &[], 2, false, 0, 1),
    // where the one that was started beforehand takes no text, another is started
    ("/bin/sh", TURNS, 1000000, true, 1000000, 0),
];

#[test]
fn a_child_gives_what_it_prints(rt: HostRuntime) -> Result<(), Fail> {
    let alloc = rt.alloc();
    let _ = fs::remove_file(&rt, "tests_of_workers_io.turn");
    for (name, words, len, started, given, faults) in PROGRAMS {
        let program = Path::new(name).to_path_buf(alloc)?;
        let folder = std::env::temp_dir(&rt)?;
        let mut workers = ChildWorkers::new(&rt, alloc, program, words, folder);
        let text = vec![in alloc; b'a'; len]?;
        for attempt in 1..5 {
            // the later ones are shorter, and have a file that an earlier one had
            let begun = workers
                .start(attempt, &text[..len / attempt as usize])
                .is_ok();
            let mut back = 0;
            if !workers.out().is_empty() {
                if let Collected::Reply { bytes, .. } = workers.collect()? {
                    back = bytes.len();
                }
            }
            let found = (begun, back, workers.faults());
            assert_eq!(rt;
                found,
                (
                    started,
                    given / attempt as usize,
                    faults.saturating_mul(attempt)
                ),
                "{} {}",
                name,
                attempt
            );
        }
    }
    Ok(())
}
