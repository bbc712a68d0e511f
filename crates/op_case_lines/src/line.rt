use op_base::Memory;
use std::alloc::Global;

/// A line that is made piece by piece. A piece for which there is no memory is left out; `done` says whether one was.
#[derive(Drop)]
pub struct Line {
    text: String,
    done: Result<(), Memory>,
}

impl Line {
    pub fn new(alloc: Global) -> Line {
        Line {
            text: String::new(alloc),
            done: Ok(()),
        }
    }

    /// What was added.
    pub fn text(&self) -> &str {
        self.text.as_str()
    }

    /// Whether all that was to be added is there.
    pub fn done(&self) -> Result<(), Memory> {
        self.done
    }

    /// Takes note of a call that was to add something.
    pub fn note(&mut self, done: Result<(), Memory>) {
        if done.is_err() {
            self.done = Err(Memory);
        }
    }

    /// Adds a text.
    pub fn add(&mut self, text: &str) {
        if self.text.push_str(text).is_err() {
            self.done = Err(Memory);
        }
    }

    /// Adds a text and a number behind it.
    pub fn add_number(&mut self, before: &str, number: u64) {
        self.add(before);
        if write!(self.text, "{number}").is_err() {
            self.done = Err(Memory);
        }
    }

    /// Adds a text and an integer behind it.
    pub fn add_integer(&mut self, before: &str, integer: i64) {
        self.add(before);
        if write!(self.text, "{integer}").is_err() {
            self.done = Err(Memory);
        }
    }

    /// Adds bytes as a field shows them: `¶` for a newline, `‹09›` for another control character, `‹ff›` where they are no text.
    pub fn add_bytes(&mut self, bytes: &[u8]) {
        match str::from_utf8(bytes) {
            Ok(text) => {
                for c in text.chars() {
                    self.add_character(c);
                }
            }
            Err(_) => {
                for byte in bytes {
                    self.add_code(*byte as u32);
                }
            }
        }
    }

    /// Adds a character as it is.
    pub fn push(&mut self, c: char) {
        if self.text.push(c).is_err() {
            self.done = Err(Memory);
        }
    }

    fn add_character(&mut self, c: char) {
        if c == '\n' {
            self.push('¶');
        } else if c.is_control() {
            self.add_code(c as u32);
        } else {
            self.push(c);
        }
    }

    fn add_code(&mut self, code: u32) {
        if write!(self.text, "‹{code:02x}›").is_err() {
            self.done = Err(Memory);
        }
    }
}
