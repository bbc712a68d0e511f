//! Laws of the definitions, for the layers above. Each is a function without a parameter, whose contract is the law.

ghost use Rattle.std.specs.Prelude.{◌≡◌, ◌↔◌, ℕ, suc, List, [], ◌≤◌, ◌<◌, ◌+◌, ◌++◌, ◌∷◌, codes, slice_index, slice_range};
ghost use Rattle.std.specs.Prelude.{length, drop, take, ◌-◌, Some, Bool, IsTrue, encode_utf8, Contains, IsUtf8};
ghost use Rattle.std.specs.Char.{IsScalar};
ghost use Rattle.op_token.specs.Character.{char_at, first_char};
ghost use Rattle.op_token.specs.Tokens.{is_minus, scan_of, unquoted, IsPlain, IsQuoted};
ghost use Rattle.op_token.specs.MadeUp.{MadeUp};
ghost use Rattle.op_token.specs.Spellings.{IsToken, IsBefore, StandsFor};
ghost use Rattle.op_token.specs.SpellingFaults.{IsFault, IsGap};
ghost use Rattle.op_token.specs.declared.token.Token.{Token};
ghost use Rattle.op_token.specs.declared.token.TokenKind.{TokenKind};
ghost use Rattle.op_token.specs.declared.token.TokenFaultKind.{TokenFaultKind};
ghost use Rattle.op_token.specs.declared.token.TokenFault.{TokenFault};
ghost use Rattle.op_token.specs.declared.spelling.Spelling.TheVariants.{Whole, Fault, Gap};
ghost use Rattle.op_token.specs.Spelling.{begins, fault};
ghost use Rattle.op_token.specs.declared.character.Character.{Character};
ghost use Rattle.op_token.specs.Cut.{cut_of, text_in, rest_in, IsText, IsFollowed, IsBehindGap, moved, texts, behind_texts};
ghost use Rattle.op_token.specs.Kind.{kind_of};
ghost use Rattle.op_token.specs.declared.kind.Kind.TheVariants.{Newline, Layout};
ghost use Rattle.op_token.specs.declared.piece.Piece.{Piece};

/// More bytes change nothing of a text that has a byte behind its end.
pub fn cut_more()
    ensures piece { (p r : List ℕ) → IsFollowed p → cut_of (p ++ r) ≡ cut_of p }
    ensures text { (p r : List ℕ) → IsFollowed p → text_in (cut_of p) (p ++ r) ≡ text_in (cut_of p) p }
    ensures rest { (p r : List ℕ) → IsFollowed p → rest_in (cut_of p) (p ++ r) ≡ rest_in (cut_of p) p ++ r }
    ensures any { (p r : List ℕ) (f t : ℕ) → cut_of p ≡ Piece.Text f t → t < length p →
        cut_of (p ++ r) ≡ Piece.Text f t }
{}

/// A text has a byte at least, and ends among the bytes; behind it are layout, `%` or the end.
pub fn cut_within()
    ensures within { (s : List ℕ) (f t : ℕ) → cut_of s ≡ Piece.Text f t → (f < t) × (t ≤ length s) }
    ensures gap { (s : List ℕ) (f t : ℕ) → cut_of s ≡ Piece.Text f t → IsBehindGap (drop t s) }
    ensures text { (p : List ℕ) → IsFollowed p → IsText (cut_of p) }
{}

/// Leading layout is skipped.
pub fn cut_layout()
    ensures newline { (b : ℕ) (s : List ℕ) → kind_of b ≡ Newline → cut_of (b ∷ s) ≡ moved (cut_of s) }
    ensures other { (b : ℕ) (s : List ℕ) → kind_of b ≡ Layout → cut_of (b ∷ s) ≡ moved (cut_of s) }
{}

/// The texts of a whole byte list are those that come when it is taken byte by byte.
pub fn cut_one_by_one()
    ensures text { (n : ℕ) (p r : List ℕ) → IsFollowed p →
        texts (suc n) (p ++ r) ≡ text_in (cut_of p) p ∷ texts n (rest_in (cut_of p) p ++ r) }
    ensures behind { (n : ℕ) (p r : List ℕ) → IsFollowed p →
        behind_texts (suc n) (p ++ r) ≡ behind_texts n (rest_in (cut_of p) p ++ r) }
{}

/// A text is made up of its tokens, with layout and whole comments between them, to its end or to the first fault.
pub fn tokens_make_up()
    ensures { (text : List ℕ) → MadeUp text 0 Bool.false (scan_of text).tokens (scan_of text).fault }
{}

/// A character is read exactly where the bytes begin with it in UTF-8.
pub fn characters()
    ensures read { (a : ℕ) (s : List ℕ) (c : Character) → char_at a s ≡ Some c →
        IsScalar c.code × (encode_utf8 c.code ≡ a ∷ take c.more s) }
    ensures every { (c : ℕ) (s : List ℕ) → IsScalar c →
        first_char (encode_utf8 c ++ s) ≡ Some (record { code = c; more = length (encode_utf8 c) - 1 }) }
{}

/// What the tokens of a text stand for is text too.
pub fn token_texts()
    ensures within { (text : List ℕ) (t : Token) → Contains (scan_of text).tokens t →
        (t.from < t.to) × (t.to ≤ length text) }
    ensures plain { (text : List ℕ) (t : Token) → Contains (scan_of text).tokens t → IsPlain t.kind →
        IsUtf8 (slice_range text t.from t.to) }
    ensures quoted { (text : List ℕ) (t : Token) → Contains (scan_of text).tokens t → IsQuoted t.kind →
        IsUtf8 (unquoted text t) }
{}

/// What a quoted token is said to stand for is what its spelling stands for, and a spelling stands for one text alone.
pub fn quoted_texts()
    ensures spelled { (text : List ℕ) (t : Token) → Contains (scan_of text).tokens t → IsQuoted t.kind →
        StandsFor t.kind (slice_range text t.from t.to) (unquoted text t) }
    ensures alone { (kind : TokenKind) (s one other : List ℕ) → StandsFor kind s one → StandsFor kind s other → one ≡ other }
{}

/// The name `-` is told by a token's kind, first byte and length exactly where the token is an unquoted name that is spelled so.
pub fn minus_is_a_name()
    ensures { (text : List ℕ) (t : Token) → t.from < t.to → t.to ≤ length text →
        (IsTrue (is_minus t.kind (slice_index text t.from) (t.to - t.from))
        ↔ ((t.kind ≡ TokenKind.Name) × (slice_range text t.from t.to ≡ codes "-"))) }
{}

/// A token is the longest at its place: no longer beginning of what stands there is a token.
pub fn tokens_are_longest()
    ensures { (at : ℕ) (minus : Bool) (s : List ℕ) (kind other : TokenKind) (end n : ℕ) →
        begins at minus s ≡ Whole kind end → end < at + n →
        begins at minus (take n s) ≡ Whole other (at + n) → ⊥ }
{}

/// A token is spelt as its kind is, from its place to its end, which is among the bytes.
pub fn tokens_are_spellings()
    ensures within { (at : ℕ) (minus : Bool) (s : List ℕ) (kind : TokenKind) (end : ℕ) → begins at minus s ≡ Whole kind end →
        (at < end) × (end ≤ at + length s) }
    ensures spelled { (at : ℕ) (minus : Bool) (s : List ℕ) (kind : TokenKind) (end : ℕ) → begins at minus s ≡ Whole kind end →
        IsToken minus kind (take (end - at) s) × IsBefore kind (take (end - at) s) (drop (end - at) s) }
{}

/// A spelling of a token, alone, is that token. A full stop alone is the end.
pub fn spellings_are_tokens()
    ensures { (at : ℕ) (minus : Bool) (s : List ℕ) (kind : TokenKind) → IsToken minus kind s → IsBefore kind s [] →
        begins at minus s ≡ Whole kind (at + length s) }
{}

/// A token that is taken is the longest spelling that begins there.
pub fn longest_spelling_is_taken()
    ensures { (at : ℕ) (minus : Bool) (s : List ℕ) (kind other : TokenKind) (end n : ℕ) →
        begins at minus s ≡ Whole kind end → end < at + n → n ≤ length s → IsToken minus other (take n s) → ⊥ }
{}

/// Where a fault stands it is told, with its place.
pub fn faults_are_told()
    ensures { (at : ℕ) (minus : Bool) (s : List ℕ) (kind : TokenFaultKind) (place : ℕ) →
        IsFault minus kind s place → begins at minus s ≡ fault (at + place) kind }
{}

/// A fault that is told stands there, at its place.
pub fn faults_stand()
    ensures { (at : ℕ) (minus : Bool) (s : List ℕ) (told : TokenFault) → begins at minus s ≡ Fault told →
        (place : ℕ) × (told.place ≡ at + place) × IsFault minus told.kind s place }
{}

/// What is passed over is layout or a comment, to its end, which is among the bytes; where no byte is left, nothing is.
pub fn gaps_are_layout_or_comments()
    ensures nothing { (at : ℕ) (minus : Bool) → begins at minus [] ≡ Gap at }
    ensures within { (at : ℕ) (minus : Bool) (b : ℕ) (s : List ℕ) (end : ℕ) → begins at minus (b ∷ s) ≡ Gap end →
        (at < end) × (end ≤ at + length (b ∷ s)) }
    ensures spelled { (at : ℕ) (minus : Bool) (b : ℕ) (s : List ℕ) (end : ℕ) → begins at minus (b ∷ s) ≡ Gap end →
        IsGap (take (end - at) (b ∷ s)) (drop (end - at) (b ∷ s)) }
{}

/// Layout and comments are passed over.
pub fn layout_and_comments_are_gaps()
    ensures { (at : ℕ) (minus : Bool) (s behind : List ℕ) → IsGap s behind →
        begins at minus (s ++ behind) ≡ Gap (at + length s) }
{}
