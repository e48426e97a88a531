// The lines that begin arrays and words, in pieces of any length.
ghost use Rattle.std.specs.Prelude.{◌≡◌, ◌≢◌, ◌<◌, ◌≤◌, ◌+◌, ◌++◌, ◌∷◌, [], List, ℕ};
ghost use Rattle.std.specs.Prelude.{length, slice_index, IsTrue, IfSome, IfNone, IfOk, IfErr, MatchOption, Some};
ghost use Rattle.std.specs.Fmt.{decimal};
ghost use Rattle.resp_reader.specs.Head.{number_limit, digits_text, IsDigits, MayEnd, NoLine, LineFault};

use memchr::memchr;

/// Which line it is.
#[derive(Clone, Copy)]
pub enum Head {
    /// How many words an array has; -1 is the null array.
    Count,
    /// How many bytes a word has.
    Length,
}

/// What came of a line behind its mark.
#[derive(Clone, Copy)]
pub enum Digits {
    Nothing,
    Number(u32),
    Minus,
    MinusOne,
}

impl Head {
    fn limit(self) -> u32
        ensures { result ≡ number_limit self }
    {
        match self {
            Head::Count => 1024,
            Head::Length => 1_048_576,
        }
    }
}

impl Digits {
    /// One byte more, if the line can have it.
    fn next(self, head: Head, byte: u8) -> Option<Digits>
        requires allowed { IsDigits head self }
        requires inside { byte ≢ 13 }
        ensures allowed { IfSome result (λ next. IsDigits head next) }
        ensures some { IfSome result (λ next. digits_text next ≡ digits_text self ++ byte ∷ []) }
        ensures none { IfNone result (NoLine head (digits_text self) byte) }
    {
        match self {
            Digits::Nothing => first(head, byte),
            Digits::Number(n) => more(n, head, byte),
            Digits::Minus => {
                if byte == b'1' {
                    Some(Digits::MinusOne)
                } else {
                    None
                }
            }
            Digits::MinusOne => None,
        }
    }
}

fn first(head: Head, byte: u8) -> Option<Digits>
    requires { byte ≢ 13 }
    ensures allowed { IfSome result (λ next. IsDigits head next) }
    ensures some { IfSome result (λ next. digits_text next ≡ byte ∷ []) }
    ensures none { IfNone result (NoLine head [] byte) }
{
    if byte == b'-' {
        return match head {
            Head::Count => Some(Digits::Minus),
            Head::Length => None,
        };
    }
    let Some(digit) = digit_of(byte) else {
        return None;
    };
    Some(Digits::Number(digit))
}

fn more(n: u32, head: Head, byte: u8) -> Option<Digits>
    requires allowed { n ≤ number_limit head }
    requires inside { byte ≢ 13 }
    ensures allowed { IfSome result (λ next. IsDigits head next) }
    ensures some { IfSome result (λ next. digits_text next ≡ digits_text (Digits.Number n) ++ byte ∷ []) }
    ensures none { IfNone result (NoLine head (digits_text (Digits.Number n)) byte) }
{
    let Some(digit) = digit_of(byte) else {
        return None;
    };
    if n == 0 {
        return None;
    }
    let next = n * 10 + digit;
    if next > head.limit() {
        return None;
    }
    Some(Digits::Number(next))
}

// The number that a digit is.
#[inline(always)]
fn digit(byte: u8) -> u32
    requires from { 48 ≤ byte }
    requires to { byte ≤ 57 }
    ensures small { result < 10 }
    ensures byte { byte ≡ 48 + result }
{
    (byte - b'0') as u32
}

fn digit_of(byte: u8) -> Option<u32>
    ensures some { IfSome result (λ digit. (digit < 10) × (byte ≡ 48 + digit)) }
    ensures none { IfNone result ((digit : ℕ) → digit < 10 → byte ≢ 48 + digit) }
{
    if byte.is_ascii_digit() {
        Some(digit(byte))
    } else {
        None
    }
}

// One digit more, if a number at most the limit can have it.
#[inline(always)]
fn one_more(n: u32, limit: u32, byte: u8) -> Option<u32>
    requires small { n ≤ 1048576 }
    ensures within { IfSome result (λ next. next ≤ limit) }
    ensures text { IfSome result (λ next. decimal next ≡ decimal n ++ byte ∷ []) }
{
    if !byte.is_ascii_digit() {
        return None;
    }
    let next = n * 10 + digit(byte);
    if n == 0 || next > limit {
        return None;
    }
    Some(next)
}

/// The bytes behind the first one, if it is this one.
#[inline(always)]
pub fn strip(bytes: &[u8], first: u8) -> Option<&[u8]>
    ensures some { IfSome result (λ rest. bytes.now ≡ first ∷ rest.now) }
    ensures none { IfNone result ((rest : List ℕ) → bytes.now ≢ first ∷ rest) }
{
    match bytes.split_first() {
        Some((byte, rest)) if *byte == first => Some(rest),
        _ => None,
    }
}

/// The bytes behind a CR and an LF.
#[inline(always)]
pub fn line_end(bytes: &[u8]) -> Option<&[u8]>
    ensures { IfSome result (λ rest. bytes.now ≡ 13 ∷ 10 ∷ rest.now) }
{
    match bytes {
        [b'\r', b'\n', rest @ ..] => Some(rest),
        _ => None,
    }
}

// More digits of a number, to the end of its line, and the bytes behind that.
fn more_line(n: u32, limit: u32, bytes: &[u8]) -> Option<(u32, &[u8])>
    requires within { n ≤ limit }
    requires small { limit ≤ 1048576 }
    ensures within { IfSome result (λ found. found.0 ≤ limit) }
    ensures text { IfSome result (λ found. decimal n ++ bytes.now ≡ decimal found.0 ++ 13 ∷ 10 ∷ found.1.now) }
    ensures shorter { IfSome result (λ found. length found.1.now < length bytes.now) }
{
    let mut n = n;
    let mut rest = bytes;
    while let Some((byte, behind)) = rest.split_first() {
        if *byte == b'\r' {
            let Some(behind) = strip(behind, b'\n') else {
                return None;
            };
            return Some((n, behind));
        }
        let Some(next) = one_more(n, limit, *byte) else {
            return None;
        };
        n = next;
        rest = behind;
    }
    None
}

// More digits of a number, of which most have one or none, to the end of its line, and the bytes behind that.
#[inline(always)]
fn short_line(n: u32, limit: u32, bytes: &[u8]) -> Option<(u32, &[u8])>
    requires within { n ≤ limit }
    requires small { limit ≤ 1048576 }
    ensures within { IfSome result (λ found. found.0 ≤ limit) }
    ensures text { IfSome result (λ found. decimal n ++ bytes.now ≡ decimal found.0 ++ 13 ∷ 10 ∷ found.1.now) }
    ensures shorter { IfSome result (λ found. length found.1.now < length bytes.now) }
{
    if let Some(behind) = line_end(bytes) {
        return Some((n, behind));
    }
    let Some((byte, rest)) = bytes.split_first() else {
        return None;
    };
    let Some(next) = one_more(n, limit, *byte) else {
        return None;
    };
    if let Some(behind) = line_end(rest) {
        return Some((next, behind));
    }
    more_line(next, limit, rest)
}

/// A number that came with its whole line, and the bytes behind that.
#[inline(always)]
pub fn whole_line(head: Head, bytes: &[u8]) -> Option<(u32, &[u8])>
    ensures within { IfSome result (λ found. found.0 ≤ number_limit head) }
    ensures text { IfSome result (λ found. bytes.now ≡ decimal found.0 ++ 13 ∷ 10 ∷ found.1.now) }
    ensures shorter { IfSome result (λ found. length found.1.now < length bytes.now) }
{
    let Some((first, rest)) = bytes.split_first() else {
        return None;
    };
    if !first.is_ascii_digit() {
        return None;
    }
    short_line(digit(*first), head.limit(), rest)
}

/// A line with the bytes behind it: the CR that ends it came, and the rest is behind that, or all bytes are the
/// line's. An error is the place of the first byte that the line can't have.
pub fn line(digits: Digits, head: Head, bytes: &[u8]) -> Result<(Digits, Option<&[u8]>), usize>
    requires { IsDigits head digits }
    ensures allowed { IfOk result (λ line. IsDigits head line.0) }
    ensures ok { IfOk result (λ line. MatchOption line.1 (digits_text line.0 ≡ digits_text digits ++ bytes.now)
        (λ rest. MayEnd line.0 × (digits_text digits ++ bytes.now ≡ digits_text line.0 ++ 13 ∷ rest.now))) }
    ensures shorter { IfOk result (λ line. IfSome line.1 (λ rest. length rest.now < length bytes.now)) }
    ensures err { IfErr result (LineFault head digits bytes.now) }
{
    let Some(end) = memchr(b'\r', bytes) else {
        let digits = all(digits, head, bytes)?;
        return Ok((digits, None));
    };
    let (front, behind) = bytes.split_at(end);
    let digits = all(digits, head, front)?;
    match digits {
        Digits::Nothing | Digits::Minus => Err(end),
        Digits::Number(_) | Digits::MinusOne => Ok((digits, Some(&behind[1..]))),
    }
}

// The line with all of these bytes, or the place of the first that it can't have.
fn all(digits: Digits, head: Head, bytes: &[u8]) -> Result<Digits, usize>
    requires allowed { IsDigits head digits }
    requires inside { (k : ℕ) → k < length bytes.now → slice_index bytes.now k ≢ 13 }
    ensures allowed { IfOk result (λ line. IsDigits head line) }
    ensures ok { IfOk result (λ line. digits_text line ≡ digits_text digits ++ bytes.now) }
    ensures err { IfErr result (LineFault head digits bytes.now) }
{
    let mut line = digits;
    for (i, byte) in bytes.iter().enumerate() {
        let Some(next) = line.next(head, *byte) else {
            return Err(i);
        };
        line = next;
    }
    Ok(line)
}
