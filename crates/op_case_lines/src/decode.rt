use op_base::Memory;
use std::alloc::Global;

/// The bytes that a field stands for.
pub fn decoded(alloc: Global, field: &str) -> Result<Vec<u8>, Memory> {
    let mut out = Vec::new(alloc);
    for (i, part) in field.split('«').enumerate() {
        if i == 0 {
            add_text(&mut out, part)?;
        } else {
            add_repeated(&mut out, part)?;
        }
    }
    Ok(out)
}

// A count, `*`, a piece and `»`, and what stands behind it.
fn add_repeated(out: &mut Vec<u8>, part: &str) -> Result<(), Memory> {
    let (inside, behind) = part.split_once('»').unwrap_or((part, ""));
    let (count, piece) = inside.split_once('*').unwrap_or(("1", inside));
    let count = count.parse::<u64>().unwrap_or(1);
    'again: for _ in 0..count {
        add_text(out, piece)?;
    }
    add_text(out, behind)
}

fn add_text(out: &mut Vec<u8>, text: &str) -> Result<(), Memory> {
    for (i, part) in text.split('‹').enumerate() {
        if i == 0 {
            add_lines(out, part)?;
        } else {
            let (digits, behind) = part.split_once('›').unwrap_or((part, ""));
            add_bytes(out, digits.as_bytes())?;
            add_lines(out, behind)?;
        }
    }
    Ok(())
}

fn add_lines(out: &mut Vec<u8>, text: &str) -> Result<(), Memory> {
    for (i, part) in text.split('¶').enumerate() {
        if i > 0 {
            out.push(b'\n')?;
        }
        out.extend_from_slice(part.as_bytes())?;
    }
    Ok(())
}

fn add_bytes(out: &mut Vec<u8>, digits: &[u8]) -> Result<(), Memory> {
    for pair in digits.chunks(2) {
        if let [high, low] = pair {
            out.push(
                value_of(*high)
                    .wrapping_mul(16)
                    .wrapping_add(value_of(*low)),
            )?;
        }
    }
    Ok(())
}

fn value_of(digit: u8) -> u8 {
    if digit.is_ascii_digit() {
        digit.wrapping_sub(b'0')
    } else {
        digit.wrapping_sub(b'a').wrapping_add(10)
    }
}
