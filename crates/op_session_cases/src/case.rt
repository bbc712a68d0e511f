use crate::sessions;
use op_base::Memory;
use op_case_lines::{Cases, Line};

/// Cases none of which leaves anything for the next.
#[derive(Drop)]
pub struct SessionCases;

impl Cases for SessionCases {
    fn add_result(
        &mut self,
        rt: HostRuntime,
        line: &mut Line,
        word: &str,
        text: &str,
    ) -> Result<(), Memory> {
        match word {
            "session" => sessions::session(rt.alloc(), line, text),
            _ => Ok(line.add("no case")),
        }
    }
}
