//! Words of the command line, and the form that they fit.

use ncq_words::{Form, WordsError, read_words};
use std::alloc::Global;
use std::process::Abort;

/// Each list of words is answered by `Usage`.
fn expect_usage(rt: &impl Abort, alloc: Global, cases: &[&[&str]]) {
    for words in cases {
        assert!(rt;
            matches!(read_words(alloc, words), Err(WordsError::Usage)),
            "{words:?}"
        );
    }
}

/// Each list of words has the form beside it.
fn expect_forms(rt: &impl Abort, alloc: Global, cases: &[(&[&str], Form)]) {
    for (words, want) in cases {
        let form = read_words(alloc, words).expect(rt, "a form");
        assert_eq!(rt; form, *want);
    }
}

#[test]
fn a_number_of_words_that_no_form_has(rt: HostRuntime) {
    let cases: [&[&str]; 5] = [
        &[],
        &["alone"],
        &["load"],
        &["run", "x"],
        &["load", "1", "2"],
    ];
    expect_usage(&rt, rt.alloc(), &cases);
}

#[test]
fn a_word_that_is_empty_or_a_flag(rt: HostRuntime) {
    let cases: [&[&str]; 7] = [
        &[""],
        &["-"],
        &["--"],
        &["--help"],
        &["run", "--"],
        &["alone", ""],
        &["alone", "-x"],
    ];
    expect_usage(&rt, rt.alloc(), &cases);
}

#[test]
fn a_mode_that_is_none(rt: HostRuntime) {
    let cases: [&[&str]; 5] = [
        &["Run"],
        &["help"],
        &["version"],
        &["help", "run"],
        &["w", "alone"],
    ];
    expect_usage(&rt, rt.alloc(), &cases);
}

#[test]
fn a_number_that_is_no_load(rt: HostRuntime) {
    let cases: [&[&str]; 5] = [
        &["load", "0"],
        &["load", "2001"],
        &["load", "0000001"],
        &["load", "x"],
        &["load", "+1"],
    ];
    expect_usage(&rt, rt.alloc(), &cases);
}

#[test]
fn words_that_fit_a_form(rt: HostRuntime) {
    let cases: [(&[&str], Form); 6] = [
        (&["run"], Form::Run),
        (&["alone", "w"], Form::Alone("w")),
        (&["alone", "run"], Form::Alone("run")),
        (&["load", "1"], Form::Load(1)),
        (&["load", "2000"], Form::Load(2000)),
        (&["load", "000001"], Form::Load(1)),
    ];
    expect_forms(&rt, rt.alloc(), &cases);
}
