ghost use Rattle.std.specs.Prelude.{◌≡◌, ◌≤◌, ◌<◌, ◌++◌, ◌∷◌, [], List, OnOk, IfOk, length, nat_lt, codes, decimal, if◌then◌else◌};
ghost use Rattle.op_logic.specs.Names.{name_at};
ghost use Rattle.op_writer.specs.Cut.{front_of};
ghost use Rattle.op_writer.specs.Fragments.{edge_of, prefix_edge, set_apart, text_of, edge_behind};
ghost use Rattle.op_writer.specs.Spelling.{name_text, quoted};
ghost use Rattle.op_writer.specs.inner.Stack.{fragment_of, IsGoodLexeme, ways_of};
ghost use Rattle.op_writer.specs.Text.{letter_text as the_letter};

use crate::edge::Edge;
use crate::front::Front;
use crate::item::Lexeme;
use crate::setting::Setting;
use crate::spelling::{has_quotes, in_quotes};
use crate::style::Style;
use itoa::Buffer;
use op_base::Memory;
use op_desk::Bytes;
use std::alloc::Global;

/// The front of a text that grows fragment by fragment, and how the text ends there.
#[derive(Drop)]
pub struct Written {
    alloc: Global,
    pub front: Front,
    pub edge: Edge,
}

fn letter_text(alloc: Global, n: u64) -> Result<Bytes, Memory>
    ensures { IfOk result (λ b. b ≡ the_letter n) }
{
    let mut text = Bytes::new(alloc);
    text.push(b'A' + (n % 26) as u8)?;
    if n >= 26 {
        text.append(Buffer::new().format(n / 26).as_bytes())?;
    }
    Ok(text)
}

impl Written {
    pub fn new(alloc: Global, limit: usize) -> Written
        ensures bytes { result.front.bytes ≡ [] }
        ensures limit { result.front.limit ≡ limit }
        ensures edge { result.edge ≡ Edge.Other }
    {
        Written {
            alloc,
            front: Front::new(alloc, limit),
            edge: Edge::Other,
        }
    }

    /// Whether there are more bytes than the limit.
    pub fn is_full(&self) -> bool
        ensures { result ≡ nat_lt self.now.front.limit (length self.now.front.bytes) }
    {
        self.front.is_full()
    }

    /// The bytes.
    pub fn into_bytes(self) -> Bytes
        ensures { result ≡ self.front.bytes }
    {
        self.front.bytes
    }

    // A fragment, set apart where it has to be.
    fn add(&mut self, fragment: &[u8]) -> Result<(), Memory>
        requires room { length self.old.front.bytes ≤ self.old.front.limit }
        ensures bytes { OnOk result (self.new.front.bytes ≡ front_of self.old.front.limit
            (self.old.front.bytes ++ set_apart self.old.edge fragment.now)) }
        ensures limit { self.new.front.limit ≡ self.old.front.limit }
        ensures edge { self.new.edge ≡ self.old.edge }
    {
        if !fragment.is_empty() && self.edge.is_apart(fragment[0]) {
            self.front.add(b" ")?;
            if self.front.is_full() {
                return Ok(());
            }
        }
        self.front.add(fragment)
    }

    fn fragment(&mut self, fragment: &[u8], is_prefix: bool) -> Result<(), Memory>
        requires room { length self.old.front.bytes ≤ self.old.front.limit }
        ensures bytes { OnOk result (self.new.front.bytes ≡ front_of self.old.front.limit
            (self.old.front.bytes ++ set_apart self.old.edge fragment.now)) }
        ensures limit { self.new.front.limit ≡ self.old.front.limit }
        ensures edge { OnOk result (self.new.edge ≡ (if is_prefix then prefix_edge fragment.now else edge_of self.old.edge fragment.now)) }
    {
        self.add(fragment)?;
        self.edge = if is_prefix {
            Edge::of_prefix(fragment)
        } else {
            self.edge.behind(fragment)
        };
        Ok(())
    }

    // A name in quotes, before which no space stands.
    fn quoted_name(&mut self, name: &str, is_prefix: bool) -> Result<(), Memory>
        requires room { length self.old.front.bytes ≤ self.old.front.limit }
        ensures bytes { OnOk result (self.new.front.bytes ≡ front_of self.old.front.limit
            (self.old.front.bytes ++ set_apart self.old.edge (quoted name.now))) }
        ensures limit { self.new.front.limit ≡ self.old.front.limit }
        ensures edge { OnOk result (self.new.edge ≡ (if is_prefix then prefix_edge (quoted name.now)
            else edge_of self.old.edge (quoted name.now))) }
    {
        in_quotes(self.alloc, &mut self.front, name)?;
        self.edge = Edge::of_quotes(is_prefix);
        Ok(())
    }

    fn name(&mut self, style: Style, name: &str, is_prefix: bool) -> Result<(), Memory>
        requires room { length self.old.front.bytes ≤ self.old.front.limit }
        ensures bytes { OnOk result (self.new.front.bytes ≡ front_of self.old.front.limit
            (self.old.front.bytes ++ set_apart self.old.edge (name_text style name.now))) }
        ensures limit { self.new.front.limit ≡ self.old.front.limit }
        ensures edge { OnOk result (self.new.edge ≡ (if is_prefix then prefix_edge (name_text style name.now)
            else edge_of self.old.edge (name_text style name.now))) }
    {
        if has_quotes(style, name) {
            self.quoted_name(name, is_prefix)
        } else {
            self.fragment(name.as_bytes(), is_prefix)
        }
    }

    fn variable(&mut self, n: u64) -> Result<(), Memory>
        requires room { length self.old.front.bytes ≤ self.old.front.limit }
        ensures bytes { OnOk result (self.new.front.bytes ≡ front_of self.old.front.limit
            (self.old.front.bytes ++ set_apart self.old.edge (codes "_" ++ decimal n))) }
        ensures limit { self.new.front.limit ≡ self.old.front.limit }
        ensures edge { OnOk result (self.new.edge ≡ edge_of self.old.edge (codes "_" ++ decimal n)) }
    {
        let mut text = Bytes::new(self.alloc);
        text.append(b"_")?;
        text.append(Buffer::new().format(n).as_bytes())?;
        self.fragment(text.as_slice(), false)
    }

    fn letter(&mut self, n: u64) -> Result<(), Memory>
        requires room { length self.old.front.bytes ≤ self.old.front.limit }
        ensures bytes { OnOk result (self.new.front.bytes ≡ front_of self.old.front.limit
            (self.old.front.bytes ++ set_apart self.old.edge (the_letter n))) }
        ensures limit { self.new.front.limit ≡ self.old.front.limit }
        ensures edge { OnOk result (self.new.edge ≡ edge_of self.old.edge (the_letter n)) }
    {
        let text = letter_text(self.alloc, n)?;
        self.fragment(text.as_slice(), false)
    }

    /// Adds a fragment.
    pub fn lexeme(&mut self, setting: &Setting<'_>, lexeme: Lexeme) -> Result<(), Memory>
        requires named { IsGoodLexeme (length setting.now.symbols.now) lexeme }
        requires room { length self.old.front.bytes ≤ self.old.front.limit }
        ensures bytes { OnOk result (self.new.front.bytes ≡ front_of self.old.front.limit
            (self.old.front.bytes ++ set_apart self.old.edge (text_of (fragment_of (ways_of setting.now) lexeme)))) }
        ensures limit { self.new.front.limit ≡ self.old.front.limit }
        ensures edge { OnOk result (self.new.edge ≡ edge_behind self.old.edge (fragment_of (ways_of setting.now) lexeme)) }
    {
        match lexeme {
            Lexeme::Sign(byte) => self.fragment(&[byte], false),
            Lexeme::Name(name) => self.name(setting.style, setting.symbols.name_of(name), false),
            Lexeme::Prefix(name) => self.name(setting.style, setting.symbols.name_of(name), true),
            Lexeme::Var(n) => self.variable(n),
            Lexeme::Int(i) => self.fragment(Buffer::new().format(i).as_bytes(), false),
            Lexeme::Letter(n) => self.letter(n),
        }
    }
}
