use crate::line::Line;
use op_reader::ReadFaultKind;
use op_token::TokenFaultKind;

/// The word for what is wrong with a token.
pub fn token_word(kind: TokenFaultKind) -> &'static str {
    match kind {
        TokenFaultKind::BadChar => "BadChar",
        TokenFaultKind::OpenQuote => "OpenQuote",
        TokenFaultKind::OpenComment => "OpenComment",
        TokenFaultKind::BadEscape => "BadEscape",
        TokenFaultKind::BadNumber => "BadNumber",
        TokenFaultKind::NumberRange => "NumberRange",
    }
}

/// Adds the words for what is wrong with a text.
pub fn add_read_kind(line: &mut Line, kind: ReadFaultKind) {
    let word = match kind {
        ReadFaultKind::Token(fault) => {
            line.add("token ");
            token_word(fault)
        }
        ReadFaultKind::NoEnd => "no_end",
        ReadFaultKind::Unbalanced => "unbalanced",
        ReadFaultKind::NoOperand => "no_operand",
        ReadFaultKind::Priority => "priority",
    };
    line.add(word);
}
