use op_base::Memory;
use op_desk::{Bytes, Chan, Fail};
use std::alloc::Global;

/// Bytes of one's own.
pub fn bytes_of(alloc: Global, bytes: &[u8]) -> Result<Bytes, Memory> {
    let mut all = Bytes::new(alloc);
    all.append(bytes)?;
    Ok(all)
}

fn chan_of(word: &str) -> Option<Chan> {
    match word {
        "commands" => Some(Chan::Commands),
        "input" => Some(Chan::Input),
        "output" => Some(Chan::Output),
        "talk" => Some(Chan::Talk),
        "note" => Some(Chan::Note),
        _ => None,
    }
}

// A call that fails: `take-commands 3` is the third take of Commands.
fn failing_of(kind: &str, number: u64) -> Option<Fail> {
    match kind.split_once('-') {
        Some(("take", chan)) => Some(Fail::Take(chan_of(chan)?, number)),
        Some(("put", chan)) => Some(Fail::Put(chan_of(chan)?, number)),
        _ => match kind {
            "attach" => Some(Fail::Attach(number)),
            "fetch" => Some(Fail::Fetch(number)),
            _ => None,
        },
    }
}

/// The one call that fails, or none for `-`.
pub fn failing(alloc: Global, text: &str) -> Result<Vec<Fail>, Memory> {
    let mut all = Vec::new(alloc);
    if let Some((kind, number)) = text.split_once(' ') {
        let number = number.parse::<u64>().unwrap_or(0);
        if let Some(call) = failing_of(kind, number) {
            all.push(call)?;
        }
    }
    Ok(all)
}
