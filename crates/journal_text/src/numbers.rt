// Plain decimals below a limit.
ghost use Rattle.std.specs.Prelude.{◌≡◌, ◌≢◌, ◌+◌, ◌^◌, ◌<◌, ◌≤◌, ◌++◌, ◌∷◌, [], ℕ, List, IfSome, IsNone};
ghost use Rattle.std.specs.Fmt.{decimal};
ghost use Rattle.std.specs.Char.{digit_value};

/// The number below a limit that a word is: digits, of which the first isn't 0, or 0 alone.
pub fn number(word: &[u8], limit: u64) -> Option<u64>
    requires { limit ≤ 2 ^ 32 }
    ensures some { IfSome result (λ n. (n < limit) × (word.now ≡ decimal n)) }
    ensures none { IsNone result → (n : ℕ) → n < limit → word.now ≢ decimal n }
{
    let (first, rest) = word.split_first()?;
    let mut n = digit(*first)?;
    for byte in rest {
        n = with_digit(n, *byte, limit)?;
    }
    if n < limit { Some(n) } else { None }
}

// One digit more.
fn with_digit(n: u64, byte: u8, limit: u64) -> Option<u64>
    requires small { n ≤ 2 ^ 32 }
    requires limited { limit ≤ 2 ^ 32 }
    ensures below { IfSome result (λ next. next < limit) }
    ensures some { IfSome result (λ next. decimal next ≡ decimal n ++ byte ∷ []) }
    ensures none { IsNone result → (m : ℕ) (more : List ℕ) → m < limit → decimal m ≢ decimal n ++ byte ∷ more }
{
    let digit = digit(byte)?;
    let next = n * 10 + digit;
    if n == 0 || limit <= next {
        return None;
    }
    Some(next)
}

fn digit(byte: u8) -> Option<u64>
    ensures some { IfSome result (λ digit. (digit < 10) × (byte ≡ 48 + digit)) }
    ensures none { IsNone result → 10 ≤ digit_value byte }
{
    match byte {
        b'0'..=b'9' => Some(u64::from(byte - b'0')),
        _ => None,
    }
}
