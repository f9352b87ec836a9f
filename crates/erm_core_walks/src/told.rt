//! What a line of a walk tells.
use erm_machine::{Answer, Decision, Task};
use erm_model::{Seat, Stamp};
use std::fmt;

/// The answers of steps that differ in one number.
#[derive(Clone, Copy)]
pub struct Answers {
    pub done: u64,
    pub words: u64,
    pub sum: u64,
    pub failed: u64,
}

impl Answers {
    /// One answer more.
    pub fn add(&mut self, answer: Answer) {
        match answer {
            Answer::Done => self.done = self.done.saturating_add(1),
            Answer::Word(found) => {
                self.words = self.words.saturating_add(1);
                self.sum = self.sum.saturating_add(found);
            }
            Answer::Failed => self.failed = self.failed.saturating_add(1),
        }
    }
}

/// What a line of a walk tells.
#[derive(Clone, Copy)]
pub enum Told {
    /// The line says what follows, or opens a machine.
    Nothing,
    /// It is no line of a walk.
    Unknown,
    One(Answer),
    Many(Answers),
    Word(u64),
    Task(Task),
    /// The numbers of a transaction that is over: its stamp, its successor stamp, that of its predecessors, and how it was decided.
    Over(Stamp, Stamp, Stamp, Decision),
    /// How many spare cells there are.
    Spare(usize),
    /// The end of the last block gathered.
    Gathered(Stamp),
    /// The seat whose next event isn't a wait, if a transaction isn't over.
    Ready(Option<Seat>),
}

impl fmt::Display for Told {
    fn fmt<W: fmt::Write>(&self, f: &mut fmt::Formatter<W>) -> fmt::Result {
        match self {
            Told::Nothing => Ok(()),
            Told::Unknown => write!(f, " -> ?"),
            Told::One(answer) => write!(f, " -> {answer:?}"),
            Told::Many(answers) => write!(
                f,
                " -> {} done, {} words of sum {}, {} failed",
                answers.done, answers.words, answers.sum, answers.failed
            ),
            Told::Word(word) => write!(f, " -> {word}"),
            Told::Task(task) => write!(f, " -> {task:?}"),
            Told::Over(stamp, succ, pred, decision) => write!(
                f,
                " -> stamp {stamp}, successor {succ}, predecessor {pred}, {decision:?}"
            ),
            Told::Spare(cells) => write!(f, " -> {cells} cells"),
            Told::Gathered(to) => write!(f, " -> up to {to}"),
            Told::Ready(Some(seat)) => write!(f, " -> seat {seat}"),
            Told::Ready(None) => write!(f, " -> nobody"),
        }
    }
}
