//! What was asked of a session, and answered.
ghost use Rattle.std.specs.Prelude.{◌≡◌, ◌∷◌, ◌++◌, ◌+◌, ◌-◌, ◌^◌, ℕ, List, [], IsOk, OnOk, min, vec_len};
ghost use Rattle.erm_client.specs.Transcripts.{EndsWith, HasMore, HasRoom, IsNew, IsSame, Starves};
ghost use Rattle.erm_report.specs.declared.answer.Answer.{Answer};

use erm_model::Seat;
use erm_report::Answer;
use erm_script::{Command, ScriptLine};
use std::alloc::{AllocError, Global};

/// Whether a client may be asked.
#[derive(Clone, Copy, Debug, PartialEq, Eq)]
pub enum Standing {
    /// It may be asked.
    Open,
    /// It was told to stop: its last line has no answer.
    Stopped,
    /// Memory ran out while a line was run, of which the transcript has nothing.
    Starved,
}

/// What was asked of a session, line by line, and what was answered: the lines of a script. It is the session's part of what is proved of scripts.
#[derive(Drop)]
pub struct Transcript {
    /// The session's seat, 1 or above.
    pub seat: Seat,
    /// Its lines, in order.
    pub lines: Vec<ScriptLine>,
    /// Their answers, in order: one for each, but for the last line of a client that was told to stop.
    pub answers: Vec<Answer>,
    pub standing: Standing,
}

impl Transcript {
    /// Of a session that was asked nothing.
    pub fn new(alloc: Global, seat: Seat) -> Transcript
        ensures { IsNew seat result }
    {
        Transcript {
            seat,
            lines: Vec::new(alloc),
            answers: Vec::new(alloc),
            standing: Standing::Open,
        }
    }

    /// Makes room for so many lines more, and their answers, where there isn't.
    pub fn make_room(&mut self, many: usize) -> Result<(), AllocError>
        ensures same { IsSame self.old self.new }
        ensures room { OnOk result (HasRoom many self.new) }
        ensures there { HasRoom many self.old → IsOk result }
        ensures kept { (spare : ℕ) → HasRoom spare self.old → HasRoom spare self.new }
    {
        self.lines.reserve(many)?;
        self.answers.reserve(many)
    }

    /// The next line, with this command: its number is its place, as far as numbers go.
    pub fn next_line(&self, command: Command) -> ScriptLine
        ensures number { result.line ≡ min (vec_len self.now.lines + 1) (2 ^ 32 - 1) }
        ensures seat { result.session ≡ self.now.seat }
        ensures asked { result.command ≡ command }
    {
        let number = match u32::try_from(self.lines.len()) {
            Ok(many) => many.saturating_add(1),
            Err(_) => u32::MAX,
        };
        ScriptLine {
            line: number,
            session: self.seat,
            command,
        }
    }

    /// Puts a line and its answer behind the others. There is room for them.
    pub fn add(&mut self, line: ScriptLine, answer: Answer)
        requires room { HasRoom 1 self.old }
        ensures more { HasMore self.old line answer self.new }
        ensures left { HasRoom 2 self.old → HasRoom 1 self.new }
    {
        let _ = self.lines.push(line);
        let _ = self.answers.push(answer);
    }

    /// Puts a line behind the others, before whose answer the client was told to stop. There is room for it.
    pub fn stop(&mut self, line: ScriptLine)
        requires room { HasRoom 1 self.old }
        ensures ends { EndsWith self.old line self.new }
    {
        let _ = self.lines.push(line);
        self.standing = Standing::Stopped;
    }

    /// Notes that memory ran out while a line was run.
    pub fn starve(&mut self)
        ensures starves { Starves self.old self.new }
    {
        self.standing = Standing::Starved;
    }

    /// The last answer.
    pub fn last(&self) -> &Answer
        requires some { (front : List Answer) × (a : Answer) × (self.now.answers.items ≡ front ++ a ∷ []) }
        ensures last { (front : List Answer) (a : Answer) → self.now.answers.items ≡ front ++ a ∷ [] → result.now ≡ a }
    {
        &self.answers[self.answers.len() - 1]
    }
}
