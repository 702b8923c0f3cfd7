//! Numbers.
ghost use Rattle.std.specs.Prelude.{◌≡◌, ◌<◌, ◌≤◌, ◌-◌, ◌^◌, IfSome};
ghost use Rattle.once_script.specs.Number.{is_plain, number_of, limit_of};

use once_machine::word::MAX_WAITERS;

/// Reads how many tasks may be counted in.
///
/// ```
/// let limit = parse_limit(text)?; // None of `0`
/// Some(Opening { kind, limit })
/// ```
pub fn parse_limit(text: &str) -> Option<u64>
    ensures value { result ≡ limit_of text.now }
    ensures within { IfSome result (λ limit. (0 < limit) × (limit ≤ 2 ^ 62 - 2)) }
{
    let limit = parse_number(text)?;
    if limit == 0 || limit > MAX_WAITERS {
        return None;
    }
    Some(limit)
}

/// Reads a number, with no sign and no zero in front.
///
/// ```
/// let number = parse_number(rest)?; // None of `012`
/// ```
pub fn parse_number(text: &str) -> Option<u64>
    ensures { result ≡ number_of text.now }
{
    if !is_plain(text) {
        return None;
    }
    text.parse().ok()
}

/// Whether a text has no plus in front, and no zero before another character.
fn is_plain(text: &str) -> bool
    ensures { result ≡ is_plain text.now }
{
    !text.starts_with('+') && (text.len() == 1 || !text.starts_with('0'))
}
