// Numbers with a sign, as words.
ghost use Rattle.std.specs.Prelude.{◌≡◌, ℕ, ◌≤◌, ◌^◌, Some, IfSome, IsNone};
ghost use Rattle.std.specs.Option.{option_and_then};
ghost use Rattle.std.specs.Result.{result_ok};
ghost use Rattle.flake_model.specs.Range.{plain_of, positive_of, negative_of, signed_of};

use itoa::Buffer;

/// The word is no number of 64 bits with a sign, or not in its one form.
#[derive(Clone, Copy, Debug, PartialEq, Eq)]
pub struct NotInteger;

/// The number that a word is: decimal digits with no leading zero, behind a `-` where it is below 0. It is one of
/// 64 bits with a sign.
pub fn read_signed(word: &[u8]) -> Result<i64, NotInteger>
    ensures { result_ok result ≡ signed_of word.now }
{
    let number = match word.strip_prefix(b"-") {
        Some(digits) => read_negative(digits),
        None => read_positive(word),
    };
    number.ok_or(NotInteger)
}

// The number below 0 whose digits these are.
fn read_negative(digits: &[u8]) -> Option<i64>
    ensures { result ≡ option_and_then negative_of (plain_of digits.now) }
{
    let size = read_plain(digits)?;
    if size == 0 {
        return None;
    }
    0i64.checked_sub_unsigned(size)
}

fn read_positive(digits: &[u8]) -> Option<i64>
    ensures { result ≡ option_and_then positive_of (plain_of digits.now) }
{
    i64::try_from(read_plain(digits)?).ok()
}

// The number that a plain decimal is, if it has 64 bits.
fn read_plain(word: &[u8]) -> Option<u64>
    ensures some { IfSome result (λ number. plain_of word.now ≡ Some number) }
    ensures none { IsNone result → (number : ℕ) → plain_of word.now ≡ Some number → 2 ^ 64 ≤ number }
{
    let mut number: u64 = 0;
    for byte in word {
        let digit = u64::from(byte.saturating_sub(b'0'));
        number = number.checked_mul(10)?.checked_add(digit)?;
    }
    let mut buffer = Buffer::new();
    if buffer.format(number).as_bytes() == word {
        Some(number)
    } else {
        None
    }
}
