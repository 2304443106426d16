ghost use Rattle.std.specs.Prelude.{◌≡◌, ◌<◌, ◌≤◌, ◌+◌, ◌^◌, [], ◌∷◌, take, drop, length, MatchOption, IfSome, not, Option};
ghost use Rattle.std.specs.List.{position};
ghost use Rattle.gl_text.specs.LogicalLines.{fields_of};
ghost use Rattle.gl_text.specs.LogicalLines as lines;
ghost use Rattle.gl_line.specs.Runs.{FirstRun};

use crate::bytes::is_separator;

/// Where the first run of bytes that are no separators begins and ends.
#[derive(Clone, Copy)]
pub struct Run {
    pub start: usize,
    pub end: usize,
}

/// Where the first separator stands.
fn separator(text: &[u8]) -> Option<usize>
    ensures first { result ≡ position lines.is_separator text.now }
{
    text.iter().position(|byte| is_separator(*byte))
}

/// Where the first byte stands that is no separator.
fn plain_byte(text: &[u8]) -> Option<usize>
    ensures first { result ≡ position (λ b. not (lines.is_separator b)) text.now }
{
    text.iter().position(|byte| !is_separator(*byte))
}

/// The first field's run.
pub fn next_run(text: &[u8]) -> Option<Run>
    ensures run { FirstRun result text.now }
{
    let start = plain_byte(text)?;
    let end = match separator(&text[start..]) {
        Some(len) => start + len,
        None => text.len(),
    };
    Some(Run { start, end })
}
