//! Words that are numbers.
use crate::fault::PageFault;
use std::str::FromStr;

/// A decimal number.
///
/// # Errors
/// A word that is no number of this type, or begins with a plus sign.
pub fn read_number<N: FromStr>(word: &str) -> Result<N, PageFault>
where
    N::Err: Drop,
{
    if word.starts_with('+') {
        return Err(PageFault::Words);
    }
    match word.parse::<N>() {
        Ok(number) => Ok(number),
        Err(_) => Err(PageFault::Words),
    }
}
