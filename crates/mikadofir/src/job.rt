//! A job as text: lines `KIND NAME WORDS`, and what is printed of each.
use notation::trouble::Trouble;
use notation::words::{Words, is_comment};
use std::alloc::Global;
use std::{fmt, fs, io};

/// What is done with the lines of a job.
pub trait Task {
    /// What a line comes to.
    type Outcome: fmt::Display + Drop;

    /// What a line of a kind comes to, by the words behind its name.
    fn outcome<'a>(
        &mut self,
        kind: &'a str,
        words: &mut Words<'a>,
    ) -> Result<Self::Outcome, Trouble<'a>>;
}

/// What a line comes to, with its kind and its name.
#[derive(Clone, Copy, Debug, Drop, PartialEq, Eq)]
struct LineOutcome<'a, O> {
    kind: &'a str,
    name: &'a str,
    outcome: O,
}

impl<'a, O: fmt::Display> fmt::Display for LineOutcome<'a, O> {
    fn fmt<W: fmt::Write>(&self, f: &mut fmt::Formatter<W>) -> fmt::Result {
        write!(f, "{} {}: {}", self.kind, self.name, self.outcome)
    }
}

/// What a line of the job comes to.
fn found<'a, T: Task>(
    heap: Global,
    task: &mut T,
    line: &'a str,
) -> Result<LineOutcome<'a, T::Outcome>, Trouble<'a>> {
    let mut words = Words::new(heap, line);
    let kind = words.word()?;
    let name = words.word()?;
    let outcome = task.outcome(kind, &mut words)?;
    Ok(LineOutcome {
        kind,
        name,
        outcome,
    })
}

/// Does the job in a file. Prints the file's name and then a line for each of its lines; one that
/// is refused or unreadable does not stop it.
pub fn run<T: Task>(rt: &HostRuntime, task: &mut T, file: &str) -> io::Result<()> {
    let job = fs::read_to_string(rt, file)?;
    println!(rt; "{file}")?;
    for (index, line) in job.lines().enumerate() {
        if is_comment(line) {
            continue;
        }
        let number = index + 1;
        match found(rt.alloc(), task, line) {
            Ok(finding) => println!(rt; "line {number}: {finding}")?,
            Err(trouble) => println!(rt; "line {number}: {trouble}")?,
        }
    }
    Ok(())
}
