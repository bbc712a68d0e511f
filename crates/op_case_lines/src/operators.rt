use op_base::Memory;
use op_term::{OpFault, OpKind};

/// The kind that a word names.
pub fn kind_of(word: &str) -> Option<OpKind> {
    match word {
        "xfx" => Some(OpKind::Xfx),
        "xfy" => Some(OpKind::Xfy),
        "yfx" => Some(OpKind::Yfx),
        "fy" => Some(OpKind::Fy),
        "fx" => Some(OpKind::Fx),
        "xf" => Some(OpKind::Xf),
        "yf" => Some(OpKind::Yf),
        _ => None,
    }
}

/// The word for a kind.
pub fn kind_word(kind: OpKind) -> &'static str {
    match kind {
        OpKind::Xfx => "xfx",
        OpKind::Xfy => "xfy",
        OpKind::Yfx => "yfx",
        OpKind::Fy => "fy",
        OpKind::Fx => "fx",
        OpKind::Xf => "xf",
        OpKind::Yf => "yf",
    }
}

/// What setting an operator came to.
pub fn set_word(set: Result<(), OpFault>) -> Result<&'static str, Memory> {
    match set {
        Ok(()) => Ok("ok"),
        Err(OpFault::Memory) => Err(Memory),
        Err(OpFault::Priority) => Ok("priority"),
        Err(OpFault::Comma) => Ok("comma"),
        Err(OpFault::Reserved) => Ok("reserved"),
        Err(OpFault::Clash) => Ok("clash"),
    }
}
