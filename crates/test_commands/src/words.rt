//! Which words are of the written form.
use command_words::read_words;
use ilk_base::Memory;
use std::alloc::Global;

// The words, owned.
fn owned(alloc: Global, words: &[&str]) -> Result<Vec<String>, Memory> {
    let mut all = Vec::new(alloc);
    for word in words {
        all.push(String::from_str(alloc, *word)?)?;
    }
    Ok(all)
}

// Whether the words behind the name of a command are these.
fn are_words(words: &[&str], wanted: &[&str]) -> bool {
    if words.len() != wanted.len() {
        return false;
    }
    for i in 0..words.len() {
        if words[i] != wanted[i] {
            return false;
        }
    }
    true
}

// A command and the words behind its name; none where words are refused.
type Command = (&'static str, &'static [&'static str]);

// Whether the words are of this command.
fn are_of(alloc: Global, words: &[String], command: Option<Command>) -> bool {
    match read_words(alloc, words) {
        Ok(Some(row)) => match command {
            Some((name, behind)) => row.name == name && are_words(&row.words, behind),
            None => false,
        },
        Ok(None) => command.is_none(),
        Err(_) => false,
    }
}

// The same, of words that are not owned yet.
fn is_read(alloc: Global, words: &[&str], command: Option<Command>) -> bool {
    match owned(alloc, words) {
        Ok(words) => are_of(alloc, &words, command),
        Err(_) => false,
    }
}

#[test]
fn words_of_a_command(rt: HostRuntime) {
    let words = ["explain", "a.ssd", "p.csv", "open", "S/V1/Q1/QA1"];
    let behind = &["a.ssd", "p.csv", "open", "S/V1/Q1/QA1"];
    assert!(rt; is_read(rt.alloc(), &words, Some(("explain", behind))));
    // without those that may be left out
    let behind = &["a.ssd", "p.csv"];
    assert!(rt; is_read(rt.alloc(), &words[..3], Some(("explain", behind))));
}

// Nothing, no command, the word help; a word too few, a word too many; an empty word, a flag, the end of flags.
const REFUSED: &[&[&str]] = &[
    &[],
    &["chek", "a", "b"],
    &["help", "check"],
    &["check", "a"],
    &["check", "a", "b", "c"],
    &["check", "a", ""],
    &["check", "a", "-b"],
    &["check", "--", "a", "b"],
];

// Whether all of these are refused.
fn are_refused(alloc: Global, rows: &[&[&str]]) -> bool {
    for words in rows {
        if !is_read(alloc, words, None) {
            return false;
        }
    }
    true
}

#[test]
fn other_words(rt: HostRuntime) {
    assert!(rt; are_refused(rt.alloc(), REFUSED));
    // three words where three are due
    let behind = &["a", "b", "c"];
    assert!(rt;
        is_read(
            rt.alloc(),
            &["order", "a", "b", "c"],
            Some(("order", behind))
        )
    );
}
