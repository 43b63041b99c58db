// The calls of a script, and what each replies.
use board::refusals::{LinesRefused, ShowRefused};
use bus::Fault;
use cpu::Answer;
use image::Refusal;

// `I` is what a load has of its image: the bytes, or what they are read from.
#[derive(Clone, Copy, Drop)]
pub enum Call<I> {
    Load(I),
    Lines(u32),
    Look(u32),
    Show(u32),
    Step,
    Run(u32),
}

// A run's three numbers are those of the tuple that it answers.
#[derive(Clone, Copy, Debug, PartialEq, Eq)]
pub enum Reply {
    Load(Result<u32, Refusal>),
    Lines(Result<(), LinesRefused>),
    Look(Result<u8, Fault>),
    Show(Result<u32, ShowRefused>),
    Step(Answer),
    Run { done: u32, taken: u32, ending: u32 },
}
