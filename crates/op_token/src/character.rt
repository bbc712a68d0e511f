ghost use Rattle.std.specs.Prelude.{◌≡◌, ◌+◌, ◌≤◌, ◌<◌, ◌^◌, length, IfSome};
ghost use Rattle.op_token.specs.Character.{is_scalar as the_scalar, continuation as the_continuation, checked as the_checked};
ghost use Rattle.op_token.specs.Character.{two as the_two, three as the_three, four as the_four, char_at};
ghost use Rattle.op_token.specs.Set.{begins_with as front_is};

/// A character of a text in UTF-8.
#[derive(Clone, Copy)]
pub struct Character {
    /// Its Unicode scalar value.
    pub code: u64,
    /// How many bytes it has behind its first.
    pub more: usize,
}

/// Whether a number is a Unicode scalar value.
pub fn is_scalar(code: u64) -> bool
    ensures { result ≡ the_scalar code }
{
    code < 0xd800 || (code >= 0xe000 && code < 0x11_0000)
}

fn continuation(rest: &[u8], at: usize) -> Option<u64>
    ensures value { result ≡ the_continuation rest.now at }
    ensures bits { IfSome result (λ x. x < 64) }
    ensures within { IfSome result (λ x. at < length rest.now) }
{
    match rest.get(at) {
        Some(byte) => {
            let byte = *byte;
            if byte >= 0x80 && byte < 0xc0 {
                Some(byte as u64 - 0x80)
            } else {
                None
            }
        }
        None => None,
    }
}

// The shortest spelling of a scalar value.
fn checked(least: u64, code: u64, more: usize) -> Option<Character>
    ensures value { result ≡ the_checked least code more }
    ensures more { IfSome result (λ c. c.more ≡ more) }
{
    if code >= least && is_scalar(code) {
        Some(Character { code, more })
    } else {
        None
    }
}

fn two(first: u8, rest: &[u8]) -> Option<Character>
    requires { 192 ≤ first }
    ensures value { result ≡ the_two first rest.now }
    ensures within { IfSome result (λ c. c.more ≤ length rest.now) }
{
    let x = continuation(rest, 0)?;
    checked(0x80, (first as u64 - 192) * 64 + x, 1)
}

fn three(first: u8, rest: &[u8]) -> Option<Character>
    requires { 224 ≤ first }
    ensures value { result ≡ the_three first rest.now }
    ensures within { IfSome result (λ c. c.more ≤ length rest.now) }
{
    let x = continuation(rest, 0)?;
    let y = continuation(rest, 1)?;
    checked(0x800, (first as u64 - 224) * 4096 + x * 64 + y, 2)
}

fn four(first: u8, rest: &[u8]) -> Option<Character>
    requires { 240 ≤ first }
    ensures value { result ≡ the_four first rest.now }
    ensures within { IfSome result (λ c. c.more ≤ length rest.now) }
{
    let x = continuation(rest, 0)?;
    let y = continuation(rest, 1)?;
    let z = continuation(rest, 2)?;
    checked(
        0x1_0000,
        (first as u64 - 240) * 26_2144 + x * 4096 + y * 64 + z,
        3,
    )
}

/// The character that a byte and the bytes behind it begin with.
pub fn char_from(first: u8, rest: &[u8]) -> Option<Character>
    ensures value { result ≡ char_at first rest.now }
    ensures within { IfSome result (λ c. c.more ≤ length rest.now) }
{
    if first < 0x80 {
        Some(Character {
            code: first as u64,
            more: 0,
        })
    } else if first < 0xc0 {
        None
    } else if first < 0xe0 {
        two(first, rest)
    } else if first < 0xf0 {
        three(first, rest)
    } else if first < 0xf8 {
        four(first, rest)
    } else {
        None
    }
}

/// Whether the bytes begin with this one.
pub fn begins_with(rest: &[u8], byte: u8) -> bool
    ensures value { result ≡ front_is byte rest.now }
{
    match rest {
        [first, ..] => *first == byte,
        [] => false,
    }
}
