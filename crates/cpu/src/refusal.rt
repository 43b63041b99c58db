// What a refusal of a configuration says. Its number is a method, and no `From`: it is asked for by that name.
ghost use Rattle.std.specs.Prelude.{◌≡◌, Some};
ghost use Rattle.cpu.specs.Config.{refusal_number};
ghost use Rattle.cpu.specs.Refusal.{refusal_text};

use crate::config::ConfigRefusal;
use std::error::Error;
use std::fmt;

impl ConfigRefusal {
    pub fn number(self) -> u8
        ensures value { result ≡ refusal_number self }
    {
        self as u8
    }
}

impl fmt::Display for ConfigRefusal {
    ghost output = { λ refusal. Some (refusal_text refusal) };

    fn fmt<W: fmt::Write>(&self, f: &mut fmt::Formatter<W>) -> fmt::Result {
        f.write_str(match self {
            ConfigRefusal::Unsupported => "the CFG word asks for what is not supported",
            ConfigRefusal::TooMany => {
                "the CFG word has too many interrupt lines or breakpoint registers"
            }
            ConfigRefusal::BreakpointsWithoutDebug => {
                "the CFG word has breakpoint registers without debugging"
            }
            ConfigRefusal::BaseUnaligned => "an exception base is not a multiple of 256",
        })
    }
}

impl Error for ConfigRefusal {}
