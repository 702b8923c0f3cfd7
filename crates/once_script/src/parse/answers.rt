//! What an init answers.
ghost use Rattle.std.specs.Prelude.{MatchOption, IfOk, IfSome, IsSome, Option, List, ℕ};
ghost use Rattle.once_machine.specs.declared.record.Ran.{Ran};
ghost use Rattle.once_script.specs.Answer.{IsAnswer, IsListed, AreAnswers};

use crate::parse::number::parse_number;
use once_machine::record::Ran;
use std::alloc::{AllocError, Global};

/// Reads what one poll of an init answers.
///
/// ```
/// match parse_answer(text)? {
///     Ran::Pending => Some(None), // the text is `p`
///     Ran::Value(value) => Some(Some(value)), // `v4` gives 4
///     Ran::Error(_) => None, // `e4`
/// }
/// ```
pub fn parse_answer(text: &str) -> Option<Ran>
    ensures { MatchOption result ((a : Ran) → ¬ IsAnswer a text.now)
        (λ answer. IsAnswer answer text.now) }
{
    if text == "p" {
        return Some(Ran::Pending);
    }
    if let Some(digits) = text.strip_prefix('v') {
        return Some(Ran::Value(parse_number(digits)?));
    }
    if let Some(digits) = text.strip_prefix('e') {
        return Some(Ran::Error(parse_number(digits)?));
    }
    None
}

/// Reads one answer of a list, which holds no error.
///
/// ```
/// let Some(answer) = parse_listed(field) else { // None of `e4`: a list holds no error
///     return Ok(None);
/// };
/// answers.push(answer)?;
/// ```
pub fn parse_listed(text: &str) -> Option<Option<u64>>
    ensures { MatchOption result ((a : Option ℕ) → ¬ IsListed a text.now)
        (λ answer. IsListed answer text.now) }
{
    match parse_answer(text)? {
        Ran::Pending => Some(None),
        Ran::Value(value) => Some(Some(value)),
        Ran::Error(_) => None,
    }
}

/// Reads one or more answers, parted by one space each.
///
/// ```
/// let Some(answers) = parse_answers(alloc, given)? else {
///     return Ok(None);
/// };
/// Ok(with_limit(Kind::Lazy(answers), limit)) // of `p v4` a lazy cell whose future has two answers
/// ```
pub fn parse_answers(alloc: Global, text: &str) -> Result<Option<Vec<Option<u64>>>, AllocError>
    ensures read { IfOk result (λ read. IfSome read (λ list. AreAnswers list.items text.now)) }
    ensures all { (answers : List (Option ℕ)) → AreAnswers answers text.now
        → IfOk result (λ read. IsSome read) }
{
    let mut answers = Vec::new(alloc);
    for field in text.split(' ') {
        let Some(answer) = parse_listed(field) else {
            return Ok(None);
        };
        answers.push(answer)?;
    }
    Ok(Some(answers))
}
