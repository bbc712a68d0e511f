/// What is shown of a term that is read; a number is how many steps or bytes there may be.
#[derive(Clone, Copy)]
pub enum Shown<'a> {
    /// The term, the bytes used and its named variables.
    Whole,
    /// How many bytes it takes.
    Used,
    /// Its text in each of the three styles.
    Texts,
    /// Its cut text.
    Cut { operand: bool },
    /// Its quoted text.
    Within(u64),
    /// Its canonical text, read and written again.
    Again(u64),
    /// The order of an equation's two sides.
    Order(u64),
    /// The value of an expression.
    Value(u64),
    /// What unifying the two sides of an equation comes to.
    Unified(u64),
    /// How large an equation is once its sides are unified, and whether it has no variable.
    Size(u64),
    /// A copy of an equation once its sides are unified.
    Copied(u64),
    /// Compounds with a name over an equation once its sides are unified.
    Compound(&'a str, u64),
}

/// What a word and a number say.
pub fn numbered_case(word: &str, number: u64) -> Option<Shown<'static>> {
    match word {
        "within" => Some(Shown::Within(number)),
        "again" => Some(Shown::Again(number)),
        "compare" => Some(Shown::Order(number)),
        "value" => Some(Shown::Value(number)),
        "unify" => Some(Shown::Unified(number)),
        "size" => Some(Shown::Size(number)),
        "copy" => Some(Shown::Copied(number)),
        _ => None,
    }
}
