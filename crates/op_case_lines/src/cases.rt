use crate::line::Line;
use op_base::Memory;
use std::io;

/// The cases of a program, with what one of them leaves for the next.
pub trait Cases {
    /// Adds the result of a case to a line: the word says what is done with the text.
    fn add_result(
        &mut self,
        rt: HostRuntime,
        line: &mut Line,
        word: &str,
        text: &str,
    ) -> Result<(), Memory>;
}

// Adds the result of a line.
fn add_line<C: Cases>(rt: HostRuntime, line: &mut Line, cases: &mut C, case: &str) {
    if case.is_empty() || case.starts_with('%') {
        line.add(case);
    } else {
        let (word, text) = case.split_once(' ').unwrap_or((case, ""));
        let done = cases.add_result(rt, line, word, text);
        line.note(done);
    }
}

/// Writes the result of each line of standard input.
pub fn run_cases<C: Cases>(rt: HostRuntime, cases: &mut C) -> io::Result<()> {
    for line in rt.lines(rt.alloc()) {
        let line = line?;
        let mut shown = Line::new(rt.alloc());
        add_line(rt, &mut shown, cases, line.as_str());
        if shown.done().is_err() {
            return Err(io::Error::from(io::ErrorKind::OutOfMemory));
        }
        let shown = shown.text();
        println!(rt; "{shown}")?;
    }
    Ok(())
}
