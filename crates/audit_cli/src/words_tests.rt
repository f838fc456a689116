//! Words and the jobs that they name. What is expected was worked out by hand from the rules of the command line.
use crate::words::{Job, WordsFault, read_words};
use std::str;
use std::test::Fail;

// What is read of these words.
fn read(rt: &HostRuntime, words: &[&str]) -> Result<String, Fail> {
    let alloc = rt.alloc();
    let mut given = Vec::new(alloc);
    for word in words {
        given.push(String::from_str(alloc, word)?)?;
    }
    let text = match read_words(alloc, given.as_slice()) {
        Ok(Job::Back(id)) => format!(in alloc; "back {id}")?,
        Ok(Job::Watch { mode, log }) => {
            let log = str::from_utf8(log.as_slice())?;
            format!(in alloc; "watch {mode:?} {log}")?
        }
        Ok(Job::WatchStore { mode, log, store }) => {
            let log = str::from_utf8(log.as_slice())?;
            let store = str::from_utf8(store.as_slice())?;
            format!(in alloc; "watch {mode:?} {log} {store}")?
        }
        Ok(
            Job::Reduce {
                mode,
                log,
                store,
                resume,
            },
        ) => {
            let log = str::from_utf8(log.as_slice())?;
            let store = str::from_utf8(store.as_slice())?;
            format!(in alloc; "reduce {mode:?} {log} {store} {resume}")?
        }
        Ok(Job::Query { store }) => {
            let store = str::from_utf8(store.as_slice())?;
            format!(in alloc; "query {store}")?
        }
        Ok(Job::Trial { seed, events }) => format!(in alloc; "trial {seed} {events}")?,
        Err(WordsFault::BadWords) => String::from_str(alloc, "bad words")?,
        Err(WordsFault::NoMemory) => String::from_str(alloc, "no memory")?,
    };
    Ok(text)
}

#[test]
fn words_name_jobs(rt: HostRuntime) -> Result<(), Fail> {
    for (words, want) in [
        (["back", "2"].as_slice(), "back 2"),
        (["back", "00000000000002"].as_slice(), "back 2"),
        (["back", "4294967295"].as_slice(), "back 4294967295"),
        (["watch", "plain", "log"].as_slice(), "watch Plain log"),
        (
            ["watch", "continuous", "log"].as_slice(),
            "watch Continuous log",
        ),
        (["watch", "full", "a b"].as_slice(), "watch Full a b"),
        (
            ["watch", "source", "\u{e9}"].as_slice(),
            "watch Source \u{e9}",
        ),
        // a hyphen alone is no option
        (["watch", "plain", "-"].as_slice(), "watch Plain -"),
        (
            ["watch", "full", "log", "a store"].as_slice(),
            "watch Full log a store",
        ),
        // words after the first `--` are no options, and only that one is dropped
        (["--", "back", "2"].as_slice(), "back 2"),
        (["back", "2", "--"].as_slice(), "back 2"),
        (["watch", "plain", "--", "-x"].as_slice(), "watch Plain -x"),
        (
            ["watch", "--", "plain", "--help"].as_slice(),
            "watch Plain --help",
        ),
        (["watch", "plain", "--", "--"].as_slice(), "watch Plain --"),
        (
            ["watch", "plain", "--", "--", "x"].as_slice(),
            "watch Plain -- x",
        ),
        (
            ["watch", "plain", "--", "--resume"].as_slice(),
            "watch Plain --resume",
        ),
        (
            ["reduce", "full", "log", "store"].as_slice(),
            "reduce Full log store false",
        ),
        (
            ["reduce", "plain", "log", "store", "--resume"].as_slice(),
            "reduce Plain log store true",
        ),
        (
            ["--resume", "reduce", "source", "log", "store"].as_slice(),
            "reduce Source log store true",
        ),
        (
            ["reduce", "plain", "log", "--", "--resume"].as_slice(),
            "reduce Plain log --resume false",
        ),
        (["query", "store"].as_slice(), "query store"),
        (["query", "2"].as_slice(), "query 2"),
        (["trial", "0", "1"].as_slice(), "trial 0 1"),
        (
            ["trial", "18446744073709551615", "200000"].as_slice(),
            "trial 18446744073709551615 200000",
        ),
    ] {
        let text = read(&rt, words)?;
        assert_eq!(rt; text.as_str(), want);
    }
    Ok(())
}

#[test]
fn no_words_are_bad(rt: HostRuntime) -> Result<(), Fail> {
    let text = read(&rt, &[])?;
    assert_eq!(rt; text.as_str(), "bad words");
    Ok(())
}

#[test]
fn words_of_no_job_are_bad(rt: HostRuntime) -> Result<(), Fail> {
    for (words, want) in [
        ([""].as_slice(), "bad words"),
        (["back"].as_slice(), "bad words"),
        (["back", ""].as_slice(), "bad words"),
        (["", "2"].as_slice(), "bad words"),
        (["Back", "2"].as_slice(), "bad words"),
        (["back", "x"].as_slice(), "bad words"),
        (["back", "+2"].as_slice(), "bad words"),
        (["back", "-2"].as_slice(), "bad words"),
        (["back", "4294967296"].as_slice(), "bad words"),
        (["back", "2", "3"].as_slice(), "bad words"),
        (["2", "back"].as_slice(), "bad words"),
    ] {
        let text = read(&rt, words)?;
        assert_eq!(rt; text.as_str(), want);
    }
    Ok(())
}

#[test]
fn words_of_another_watch_are_bad(rt: HostRuntime) -> Result<(), Fail> {
    for (words, want) in [
        (["watch"].as_slice(), "bad words"),
        (["watch", "plain"].as_slice(), "bad words"),
        (["watch", "plain", ""].as_slice(), "bad words"),
        (["watch", "Plain", "log"].as_slice(), "bad words"),
        (["watch", "sources", "log"].as_slice(), "bad words"),
        (["watch", "plain", "log", ""].as_slice(), "bad words"),
        (["watch", "plain", "", "store"].as_slice(), "bad words"),
        (["watch", "sources", "log", "store"].as_slice(), "bad words"),
        (
            ["watch", "plain", "log", "store", "x"].as_slice(),
            "bad words",
        ),
        (
            ["watch", "plain", "log", "store", "--resume"].as_slice(),
            "bad words",
        ),
        (["watch", "plain", "-x"].as_slice(), "bad words"),
        (
            ["watch", "plain", "--", "--", "x", "y"].as_slice(),
            "bad words",
        ),
    ] {
        let text = read(&rt, words)?;
        assert_eq!(rt; text.as_str(), want);
    }
    Ok(())
}

#[test]
fn words_of_another_store_are_bad(rt: HostRuntime) -> Result<(), Fail> {
    for (words, want) in [
        (["reduce"].as_slice(), "bad words"),
        (["reduce", "plain", "log"].as_slice(), "bad words"),
        (["reduce", "Plain", "log", "store"].as_slice(), "bad words"),
        (["reduce", "plain", "", "store"].as_slice(), "bad words"),
        (["reduce", "plain", "log", ""].as_slice(), "bad words"),
        (
            ["reduce", "plain", "log", "store", "x"].as_slice(),
            "bad words",
        ),
        (["query"].as_slice(), "bad words"),
        (["query", ""].as_slice(), "bad words"),
        (["query", "store", "x"].as_slice(), "bad words"),
        (["query", "store", "--resume"].as_slice(), "bad words"),
        (
            ["watch", "plain", "log", "--resume"].as_slice(),
            "bad words",
        ),
    ] {
        let text = read(&rt, words)?;
        assert_eq!(rt; text.as_str(), want);
    }
    Ok(())
}

#[test]
fn words_of_another_trial_are_bad(rt: HostRuntime) -> Result<(), Fail> {
    for (words, want) in [
        (["trial", "1"].as_slice(), "bad words"),
        (["trial", "1", "0"].as_slice(), "bad words"),
        (["trial", "1", "200001"].as_slice(), "bad words"),
        (
            ["trial", "18446744073709551616", "1"].as_slice(),
            "bad words",
        ),
        (["trial", "1", "x"].as_slice(), "bad words"),
        (["trial", "+1", "1"].as_slice(), "bad words"),
        (["trial", "1", "1", "1"].as_slice(), "bad words"),
    ] {
        let text = read(&rt, words)?;
        assert_eq!(rt; text.as_str(), want);
    }
    Ok(())
}

#[test]
fn options_are_bad(rt: HostRuntime) -> Result<(), Fail> {
    for (words, want) in [
        (["help"].as_slice(), "bad words"),
        (["--help"].as_slice(), "bad words"),
        (["-h"].as_slice(), "bad words"),
        (["--version"].as_slice(), "bad words"),
        (["-V"].as_slice(), "bad words"),
        (["watch", "plain", "--help"].as_slice(), "bad words"),
        (["back", "2", "--resume"].as_slice(), "bad words"),
        (["--resume", "back", "2"].as_slice(), "bad words"),
        (
            ["--resume", "back", "2", "--resume"].as_slice(),
            "bad words",
        ),
        (["back", "2", "--resum"].as_slice(), "bad words"),
        (["back", "2", "--resume=x"].as_slice(), "bad words"),
        (["back", "2", "-r"].as_slice(), "bad words"),
        (["trial", "1", "1", "--resume"].as_slice(), "bad words"),
    ] {
        let text = read(&rt, words)?;
        assert_eq!(rt; text.as_str(), want);
    }
    Ok(())
}
