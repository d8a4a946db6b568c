//! The numbers among the words of a line.
ghost use Rattle.std.specs.Prelude.{◌≡◌, Decides, IfErr};
ghost use Rattle.std.specs.Char.{is_digit};
ghost use Rattle.std.specs.List.{list_all};
ghost use Rattle.std.specs.Result.{result_ok};
ghost use Rattle.std.specs.Str.Parse.{IsNumeral, without_leading_sign};
ghost use Rattle.script_lines.specs.Numbers.{nearest, NumbersRead, StandsFor, WhyNone};
ghost use Rattle.script_lines.specs.Words.{words_left};

use crate::faults::LineFault;
use std::alloc::Global;
use std::str::SplitAsciiWhitespace;

/// The i32 nearest to n: n itself where it is one.
pub fn clamp(n: i64) -> i32
    ensures { result ≡ nearest n }
{
    n.clamp(i64::from(i32::MIN), i64::from(i32::MAX)) as i32
}

/// The number that a word stands for, clamped; or what is wrong, where it is none: that it is too large, or
/// the fault given.
pub fn read_number(word: &str, wrong: LineFault) -> Result<i32, LineFault>
    ensures number { StandsFor word.now (result_ok result) }
    ensures fault { IfErr result (WhyNone wrong word.now) }
{
    match word.parse() {
        Ok(n) => Ok(clamp(n)),
        Err(_) if is_numeral(word) => Err(LineFault::TooLarge),
        Err(_) => Err(wrong),
    }
}

// Whether the word is decimal digits, perhaps after a sign.
fn is_numeral(word: &str) -> bool
    ensures { Decides result (IsNumeral 10 (without_leading_sign word.now)) }
{
    let digits = after_sign(word.as_bytes());
    !digits.is_empty() && are_digits(digits)
}

// Whether each byte is a decimal digit.
fn are_digits(bytes: &[u8]) -> bool
    ensures { result ≡ list_all (λ b. is_digit b 10) bytes.now }
{
    bytes.iter().all(|b| char::from(*b).is_digit(10))
}

// What stands after a sign, or all where there is none.
fn after_sign(bytes: &[u8]) -> &[u8]
    ensures { result.now ≡ without_leading_sign bytes.now }
{
    match bytes {
        [b'-' | b'+', digits @ ..] => digits,
        _ => bytes,
    }
}

// The numbers that the words left stand for; or what is wrong, where one is none.
pub(crate) fn read_numbers(
    heap: Global,
    words: SplitAsciiWhitespace<'_>,
    wrong: LineFault,
) -> Result<Vec<i32>, LineFault>
    ensures { NumbersRead wrong (words_left words.entry) result }
{
    let mut numbers = Vec::new(heap);
    for word in words {
        let number = read_number(word, wrong)?;
        numbers.push(number)?;
    }
    Ok(numbers)
}
