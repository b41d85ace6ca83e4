//! The verdict on the lines of the answers.

ghost use Rattle.std.specs.Prelude.{◌≡◌, count_by};
ghost use Rattle.std.specs.List.{list_any};
ghost use Rattle.cli_drive.specs.Answers.{judged_by};
ghost use Rattle.cli_drive.specs.Answers.{is_answer, is_answered, is_journal_fault, is_refusal, is_script_fault};

use crate::telling::{Verdict, is_stop};

/// The verdict on the lines of the answers to these lines.
pub(crate) fn judged(lines: &[&str], rows: &[&str]) -> Verdict
    ensures { result ≡ judged_by (λ row. row.now) lines.now rows.now }
{
    if count_answers(rows) < count_answered(lines) {
        Verdict::Short
    } else if has_journal_fault(rows) {
        Verdict::JournalFault
    } else if has_refusal(rows) {
        Verdict::Refused
    } else if has_script_fault(rows) {
        Verdict::ScriptFault
    } else {
        Verdict::Done
    }
}

// How many lines have an answer.
fn count_answered(lines: &[&str]) -> usize
    ensures { result ≡ count_by (λ line. is_answered line.now) lines.now }
{
    lines.iter().filter(|line| is_answered(line)).count()
}

// How many answers there are.
fn count_answers(rows: &[&str]) -> usize
    ensures { result ≡ count_by (λ row. is_answer row.now) rows.now }
{
    rows.iter().filter(|row| is_answer(row)).count()
}

fn has_journal_fault(rows: &[&str]) -> bool
    ensures { result ≡ list_any (λ row. is_journal_fault row.now) rows.now }
{
    rows.iter().any(|row| is_journal_fault(row))
}

fn has_refusal(rows: &[&str]) -> bool
    ensures { result ≡ list_any (λ row. is_refusal row.now) rows.now }
{
    rows.iter().any(|row| is_refusal(row))
}

fn has_script_fault(rows: &[&str]) -> bool
    ensures { result ≡ list_any (λ row. is_script_fault row.now) rows.now }
{
    rows.iter().any(|row| is_script_fault(row))
}

// Whether a line has an answer: it is not empty, not a comment, and does not stop the centres.
fn is_answered(line: &str) -> bool
    ensures { result ≡ is_answered line.now }
{
    !(line.is_empty() || line.as_bytes().starts_with(b"#") || is_stop(line))
}

// Whether a line is the first of an answer.
fn is_answer(row: &str) -> bool
    ensures { result ≡ is_answer row.now }
{
    row.as_bytes().starts_with(b"> ")
        || is_script_fault(row)
        || is_journal_fault(row)
        || is_refusal(row)
}

fn is_script_fault(row: &str) -> bool
    ensures { result ≡ is_script_fault row.now }
{
    row == "script fault"
}

fn is_journal_fault(row: &str) -> bool
    ensures { result ≡ is_journal_fault row.now }
{
    row == "journal fault"
}

// Whether it is the answer to a refused commit, with the number of the fault.
fn is_refusal(row: &str) -> bool
    ensures { result ≡ is_refusal row.now }
{
    row == "refused 1" || row == "refused 2" || row == "refused 3" || row == "refused 4"
}
