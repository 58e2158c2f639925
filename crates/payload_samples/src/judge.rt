// Whether the library answers a sample line as it says.
use crate::ask::ask;
use sample_lines::tally::LineJudge;
use sample_lines::{UNTOUCHED, UNTOUCHED_WORD, is_answer, read_line};

// Nothing stays from line to line.
#[derive(Clone, Copy)]
pub struct Payloads;

impl LineJudge for Payloads {
    fn is_right(&mut self, line: &[u8]) -> bool {
        is_right(line)
    }
}

fn is_right(line: &[u8]) -> bool {
    let mut question = [0u8; 1];
    let mut arguments = [0u8; 16640];
    let mut input = [0u8; 16640];
    let mut answer = [0u8; 16640];
    let mut output = [0u8; 16640];
    if !read_line(
        line,
        &mut question,
        &mut arguments,
        &mut input,
        &mut answer,
        &mut output,
    ) {
        return false;
    }
    let mut out = [UNTOUCHED; 16640];
    let mut list = [UNTOUCHED_WORD; 1024];
    let asked = ask(question[0], &arguments, &input, &mut out, &mut list);
    is_answer(asked, &list, &out, &answer, &output)
}
