//! Words that are taken, and words that are not.

use command_words::{ProgramWords, RunWords, read_words};
use std::alloc::Global;
use std::test::Fail;

/// Words, and what they ask for: the names in the order V, E, J, then what may be left out, then the scripts.
const TAKEN: [(&str, &str); 16] = [
    ("run --vertices v --edges e --journal j s", "v e j: s"),
    (
        "run s --cut --journal j --directed t --edges e --weights 9 --schedule p --leaves 131072 --vertices v u",
        "v e j directed 9 cut p 131072: s t u",
    ),
    (
        "run --vertices=-v --edges=e --journal= -- -s --cut",
        "-v e : -s --cut",
    ),
    (
        "run --vertices - --edges v --journal ./v help",
        "- v ./v: help",
    ),
    (
        "run --vertices=v=w --edges e --journal j --weights 00000000000000000000 make run",
        "v=w e j 0: make run",
    ),
    (
        "run --vertices v --edges e --journal s.reports --schedule report s t.report",
        "v e s.reports report: s t.report",
    ),
    (
        "make --seed 18446744073709551615 --vertices 1000000 --edges 3000000 --out v --edges-out e",
        "18446744073709551615 1000000 3000000 v e",
    ),
    (
        "make --edges-out=-e --out V --edges 0 --vertices 00000000000000000002 --seed 0",
        "0 2 0 V -e",
    ),
    ("run --journal j --edges e --vertices v -- s", "v e j: s"),
    ("run --vertices v --edges e --journal j s --", "v e j: s"),
    ("run --vertices v --edges e --journal j -", "v e j: -"),
    (
        "run --serial --vertices v --edges e --journal j --leaves 7 s",
        "v e j 7 serial: s",
    ),
    (
        "run --vertices v --edges e --journal j --threads 32 --leaves 7 s",
        "v e j 7 threads 32: s",
    ),
    (
        "run --keep k --vertices v --edges e --journal j --schedule p s",
        "v e j p keep k: s",
    ),
    ("recover --journal j --keep k", "k j"),
    ("recover --keep=-k --journal=", "-k "),
];

const REFUSED: [&str; 51] = [
    "",
    "help",
    "--help",
    "-h",
    "--version",
    "ru --vertices v --edges e --journal j s",
    "-- run --vertices v --edges e --journal j s",
    "make run --vertices v --edges e --journal j s",
    "run --help",
    "run --vertices v --edges e --journal j -h s",
    "run --edges e --journal j s",
    "run --vertices v --journal j s",
    "run --vertices v --edges e s",
    "run --vertices v --edges e --journal j",
    "run --vertice v --edges e --journal j s",
    "run --vertices v --edges e --journal j s --schedule",
    "run --vertices v --edges e --journal j --vertices w s",
    "run --vertices v --edges e --journal j --directed --directed s",
    "run --vertices v --edges e --journal j --cut=1 s",
    "run --vertices -v --edges e --journal j s",
    "run --vertices v --edges e --journal j -s",
    "run --vertices v --edges e --journal j --threads 0 s",
    "run --vertices v --edges e --journal j --threads 33 s",
    "run --vertices v --edges e --journal j --threads 2 --schedule p s",
    "run --vertices v --edges e --journal j --serial --threads 2 s",
    "run --vertices v --edges e --journal j --serial --serial s",
    "run --vertices v --edges e --journal j --leaves 0 s",
    "run --vertices v --edges e --journal j --leaves 131073 s",
    "run --vertices v --edges e --journal j --weights 10 s",
    "run --vertices v --edges e --journal j --weights +1 s",
    "run --vertices v --edges e --journal j --weights= s",
    "run --vertices v --edges e --journal j --weights 000000000000000000001 s",
    "run --vertices v --edges e --journal v s",
    "run --vertices v --edges e --journal j --schedule s s",
    "run --vertices v --edges e --journal s.report s",
    "run --vertices v --edges e --journal j s t s.report",
    "run --vertices v --edges e --journal j s t s",
    "run --vertices v --edges e --journal j --keep j s",
    "run --vertices v --edges e --journal j --keep s.report s",
    "run --vertices v --edges e --journal j --keep k --serial s",
    "run --vertices v --edges e --journal j --keep k --threads 2 s",
    "recover --keep k",
    "recover --journal j",
    "recover --keep k --journal k",
    "recover --keep k --journal j s",
    "make --seed 0 --vertices 2 --edges 0 --out v --edges-out v",
    "make --seed 18446744073709551616 --vertices 2 --edges 0 --out v --edges-out e",
    "make --seed 0 --vertices 1 --edges 0 --out v --edges-out e",
    "make --seed 0 --vertices 1000001 --edges 0 --out v --edges-out e",
    "make --seed 0 --vertices 2 --edges 3000001 --out v --edges-out e",
    "make --seed 0 --vertices 2 --edges 1e3 --out v --edges-out e",
];

#[test]
fn words_are_taken_as_what_they_ask_for(rt: HostRuntime) -> Result<(), Fail> {
    for (words, want) in TAKEN {
        let got = answer_to(rt.alloc(), words)?;
        assert_eq!(rt; got.as_str(), want, "of {words}");
    }
    Ok(())
}

#[test]
fn other_words_are_refused(rt: HostRuntime) -> Result<(), Fail> {
    for words in REFUSED {
        let got = answer_to(rt.alloc(), words)?;
        assert_eq!(rt; got.as_str(), "bad words", "of {words}");
    }
    Ok(())
}

#[test]
fn sixty_scripts_are_taken_and_one_more_is_not(rt: HostRuntime) -> Result<(), Fail> {
    let alloc = rt.alloc();
    let mut words = String::from_str(alloc, "run --vertices v --edges e --journal j")?;
    for i in 0..60 {
        words.push_str(format!(in alloc; " s{i}")?.as_str())?;
    }
    assert!(rt; answer_to(alloc, words.as_str())?.starts_with("v e j: s0 "));
    words.push_str(" s60")?;
    assert_eq!(rt; answer_to(alloc, words.as_str())?.as_str(), "bad words");
    Ok(())
}

/// What words, cut at blanks, ask for, or why they aren't taken.
fn answer_to(alloc: Global, line: &str) -> Result<String, Fail> {
    let mut words = Vec::new(alloc);
    for word in line.split_whitespace() {
        words.push(String::from_str(alloc, word)?)?;
    }
    let answer = match read_words(alloc, words.as_slice()) {
        Ok(ProgramWords::Run(run)) => text_of_run(alloc, &run)?,
        Ok(ProgramWords::Make(make)) => format!(in alloc;
            "{} {} {} {} {}",
            make.seed, make.vertices, make.edges, make.out, make.edges_out
        )?,
        Ok(ProgramWords::Recover(recover)) => {
            format!(in alloc; "{} {}", recover.keep, recover.journal)?
        }
        Err(refusal) => format!(in alloc; "{refusal}")?,
    };
    Ok(answer)
}

fn text_of_run(alloc: Global, run: &RunWords<'_>) -> Result<String, Fail> {
    let mut text = format!(in alloc; "{} {} {}", run.vertices, run.edges, run.journal)?;
    if run.is_directed {
        text.push_str(" directed")?;
    }
    if let Some(digits) = run.weights {
        text.push_str(format!(in alloc; " {digits}")?.as_str())?;
    }
    if run.is_cut {
        text.push_str(" cut")?;
    }
    if let Some(schedule) = run.schedule {
        text.push_str(" ")?;
        text.push_str(schedule)?;
    }
    if let Some(leaves) = run.leaves {
        text.push_str(format!(in alloc; " {leaves}")?.as_str())?;
    }
    if let Some(threads) = run.threads {
        text.push_str(format!(in alloc; " threads {threads}")?.as_str())?;
    }
    if run.is_serial {
        text.push_str(" serial")?;
    }
    if let Some(keep) = run.keep {
        text.push_str(" keep ")?;
        text.push_str(keep)?;
    }
    text.push_str(":")?;
    for script in run.scripts.iter() {
        text.push_str(" ")?;
        text.push_str(*script)?;
    }
    Ok(text)
}
