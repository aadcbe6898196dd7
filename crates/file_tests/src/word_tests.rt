//! Each public call once, and a count that no command prints. Words that are refused are rows of the program.
use core_words::config_from_args;
use std::alloc::{AllocError, Global};
use std::test::Fail;

/// Words with blanks between them.
fn split_words(alloc: Global, text: &str) -> Result<Vec<String>, AllocError> {
    let mut words = Vec::new(alloc);
    for word in text.split(' ') {
        words.push(String::from_str(alloc, word)?)?;
    }
    Ok(words)
}

#[test]
fn words_of_a_report_are_taken(rt: HostRuntime) -> Result<(), Fail> {
    let alloc = rt.alloc();
    let mut words = split_words(alloc, "d --json -c-x --layouts=file a=b=c")?;
    for _ in 0..300 {
        words.push(String::from_str(alloc, "-l")?)?;
    }
    let taken = config_from_args(alloc, &words).or(Err("refused"))?;
    assert!(rt; taken.config.dump_json && taken.config.dump_locals == 255);
    assert!(rt; taken.core.as_bytes() == b"-x".as_slice());
    assert!(rt; taken.layouts.as_bytes() == b"file".as_slice());
    Ok(())
}
