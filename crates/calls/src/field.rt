// What a field stands for. A field that is not of its kind, or out of its bounds, makes the line bad.
ghost use Rattle.std.specs.Prelude.{◌<◌, ◌≤◌, IfOk};

use std::alloc::{AllocError, Global};
use std::str;
use std::str::FromStr;

// Why no call is made of a line.
#[derive(Debug, Drop)]
pub enum LineError {
    // It does not follow the protocol.
    Bad,
    OutOfMemory(AllocError),
}

impl From<AllocError> for LineError {
    fn from(e: AllocError) -> LineError {
        LineError::OutOfMemory(e)
    }
}

// A number, spelled as numbers are printed: without a sign, and without a zero before other digits.
pub fn number<N: FromStr>(field: &[u8]) -> Result<N, LineError>
where
    N::Err: Drop,
{
    if !matches!(field, b"0" | [b'1'..=b'9', ..]) {
        return Err(LineError::Bad);
    }
    let text = str::from_utf8(field).map_err(|_| LineError::Bad)?;
    text.parse().map_err(|_| LineError::Bad)
}

// The length of a workspace, at most `most`.
pub fn length(field: &[u8], most: usize) -> Result<usize, LineError>
    ensures { IfOk result (λ n. n ≤ most) }
{
    let n = number(field)?;
    if n > most {
        return Err(LineError::Bad);
    }
    Ok(n)
}

// By hand: the library's `to_digit` takes capitals too, which the protocol refuses.
fn digit(b: u8) -> Result<u8, LineError>
    ensures { IfOk result (λ d. d < 16) }
{
    match b {
        b'0'..=b'9' => Ok(b - b'0'),
        b'a'..=b'f' => Ok(b - b'a' + 10),
        _ => Err(LineError::Bad),
    }
}

fn byte([high, low]: [u8; 2]) -> Result<u8, LineError> {
    Ok(16 * digit(high)? + digit(low)?)
}

// Bytes, at most `most` and two digits each; `-` for none.
pub fn bytes(alloc: Global, field: &[u8], most: usize) -> Result<Vec<u8>, LineError> {
    if field == b"-".as_slice() {
        return Ok(Vec::new(alloc));
    }
    let (pairs, odd) = field.as_chunks::<2>();
    if field.is_empty() || !odd.is_empty() || pairs.len() > most {
        return Err(LineError::Bad);
    }
    pairs.iter().map(|pair| byte(*pair)).try_collect(alloc)
}

// Numbers of 16 bits, at most `most` and four digits each; `-` for none.
pub fn list(alloc: Global, field: &[u8], most: usize) -> Result<Vec<u16>, LineError> {
    let bytes = bytes(alloc, field, most.saturating_mul(2))?;
    let (numbers, half) = bytes.as_slice().as_chunks::<2>();
    if !half.is_empty() {
        return Err(LineError::Bad);
    }
    let list = numbers.iter().map(|n| u16::from_be_bytes(*n));
    Ok(list.collect(alloc)?)
}
