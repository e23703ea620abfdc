//! The words of the command line.

ghost use Rattle.std.specs.Prelude.{◌≡◌, ◌≤◌, map, string_bytes};
ghost use Rattle.frame_bench.specs.Tasks.{task_of, frames_by, piece_size};

/// How much of the input a framer is fed at once.
#[derive(Clone, Copy, Debug, PartialEq, Eq)]
pub enum Cutting {
    Byte,
    Block,
    Whole,
}

/// What is measured.
#[derive(Clone, Copy, Debug, PartialEq, Eq)]
pub enum Task {
    /// The framer alone.
    Frames(Cutting),
    /// The framer, fed at once, and the reading of each content as a message.
    Messages,
}

impl Task {
    /// The most bytes that the framer is fed at once.
    pub fn piece_size(self) -> usize
        ensures size { result ≡ piece_size self }
        ensures some { 1 ≤ result }
    {
        match self {
            Task::Frames(Cutting::Byte) => 1,
            Task::Frames(Cutting::Block) => 4096,
            Task::Frames(Cutting::Whole) => 67_108_864,
            Task::Messages => 67_108_864,
        }
    }
}

/// What the words ask to measure.
pub fn task_of(words: &[String]) -> Option<Task>
    ensures { result ≡ task_of (map (λ word. string_bytes word) words.now) }
{
    match words {
        [what] => {
            if what.as_str() == "message" {
                Some(Task::Messages)
            } else {
                None
            }
        }
        [what, cutting] => {
            if what.as_str() == "framer" {
                frames_by(cutting.as_str())
            } else {
                None
            }
        }
        _ => None,
    }
}

fn frames_by(cutting: &str) -> Option<Task>
    ensures { result ≡ frames_by cutting.now }
{
    match cutting {
        "byte" => Some(Task::Frames(Cutting::Byte)),
        "block" => Some(Task::Frames(Cutting::Block)),
        "whole" => Some(Task::Frames(Cutting::Whole)),
        _ => None,
    }
}
