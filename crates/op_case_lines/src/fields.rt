/// The field at a place, from 0; an empty one where there are fewer.
pub fn field(text: &str, place: usize) -> &str {
    text.split('§').nth(place).unwrap_or("").trim()
}

/// A number at the beginning, and what stands behind the space that follows it.
pub fn numbered(text: &str) -> Option<(u64, &str)> {
    let (number, behind) = text.split_once(' ')?;
    Some((number.parse::<u64>().ok()?, behind))
}
