// What issue answers to a page, and to the page with one line left out.
use crate::published::Listed;
use page::report::answer;
use std::alloc::{AllocError, Global};

// What issue says of a page.
#[derive(Clone, Copy, PartialEq)]
pub enum Answer {
    Issued,
    Hole,
    Conflict,
    Asymmetry,
    Other,
}

// The lines that the report prints for a page.
pub fn ask(heap: Global, page: &str) -> Result<String, AllocError> {
    let report = answer(heap, page.as_bytes())?;
    Ok(report.text)
}

// The answer that the report's lines give; a report has no other word for its refusal.
pub fn answer_of(text: &str) -> Answer {
    if text.starts_with("issued ") {
        Answer::Issued
    } else if text.starts_with("refused 16") {
        Answer::Hole
    } else if text.starts_with("refused 17") {
        Answer::Conflict
    } else if text.starts_with("refused 18") {
        Answer::Asymmetry
    } else {
        Answer::Other
    }
}

// The report's lines as one.
pub fn one_line(heap: Global, text: &str) -> Result<String, AllocError> {
    let mut line = String::new(heap);
    for part in text.lines() {
        if !line.is_empty() {
            line.push_str(", ")?;
        }
        line.push_str(part)?;
    }
    Ok(line)
}

// How many lines of a page begin with a word?
fn lines_with(page: &str, word: &str) -> usize {
    page.lines().filter(|line| line.starts_with(word)).count()
}

// The page without the k-th line, from 0, that begins with a word.
fn without(heap: Global, page: &str, word: &str, k: usize) -> Result<String, AllocError> {
    let left_out = page
        .lines()
        .enumerate()
        .filter(|(_, line)| line.starts_with(word))
        .map(|(i, _)| i)
        .nth(k);
    let mut rest = String::new(heap);
    for (i, line) in page.lines().enumerate() {
        if left_out != Some(i) {
            rest.push_str(line)?;
            rest.push_str("\n")?;
        }
    }
    Ok(rest)
}

// How many of the listed lines are needed: left out alone, each has issue answer as it should.
pub fn needed(heap: Global, page: &str, listed: Listed) -> Result<usize, AllocError> {
    let all = lines_with(page, listed.word);
    // A `filter` whose closure allocates could not fail where it does.
    let mut n = 0usize;
    for k in all.saturating_sub(listed.lines)..all {
        let rest = without(heap, page, listed.word, k)?;
        let text = ask(heap, rest.as_str())?;
        if answer_of(text.as_str()) == listed.without {
            n = n.saturating_add(1);
        }
    }
    Ok(n)
}
